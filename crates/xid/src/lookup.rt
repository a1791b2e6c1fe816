// What forget asks, for sources that can look a status up without changing.
ghost use Rattle.std.specs.Prelude.{◌≡◌, ℕ};
ghost use Rattle.xid.specs.declared.statuses.Status.{Status};
ghost use Rattle.xid.specs.Numbers.{distance as distance_of};
ghost use Rattle.xid.specs.Meaning.{none_open, forgettable_by};

use crate::numbers::distance;
use crate::statuses::Status;
use crate::window::Window;

pub trait Lookup {
    ghost statuses: { Self → ℕ → Status };

    // The status of x.
    fn look(&self, x: u32) -> Status
        ensures { result ≡ statuses self.now x };
}

// Whether no number from `oldest` on before c is open.
pub fn none_open_before<L: Lookup>(oldest: u32, c: u32, source: &L) -> bool
    ensures { result ≡ none_open (L.statuses source.now) oldest (distance_of oldest c) }
{
    (0..distance(oldest, c)).all(|away| !source.look(oldest.wrapping_add(away)).is_open())
}

// Whether c is in the window or next, and no number before it is open.
pub fn is_forgettable<L: Lookup>(window: Window, c: u32, source: &L) -> bool
    ensures { result ≡ forgettable_by window.oldest window.next (L.statuses source.now) c }
{
    (window.contains(c) || c == window.next) && none_open_before(window.oldest, c, source)
}
