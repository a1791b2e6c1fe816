// The nearest of some numbers, and the horizon.
ghost use Rattle.std.specs.Prelude.{◌≡◌, if◌then◌else◌};
ghost use Rattle.snapshot.specs.Snapshots.{nearer as is_nearer, nearest as nearest_of, horizon_of};

use crate::active::Active;
use crate::places::Places;
use xid::numbers::distance;
use xid::source::StatusSource;

// The one of x and y that lies nearer from `oldest` on; y if both are the same.
pub fn nearer(oldest: u32, x: u32, y: u32) -> u32
    ensures { result ≡ (if is_nearer oldest x y then x else y) }
{
    if distance(oldest, x) < distance(oldest, y) {
        x
    } else {
        y
    }
}

// The one of `first` and xs that lies nearest from `oldest` on.
pub fn nearest(oldest: u32, first: u32, xs: &[u32]) -> u32
    ensures { result ≡ nearest_of oldest first xs.now }
{
    xs.iter().fold(first, |best, x| nearer(oldest, *x, best))
}

// The oldest number that anybody may still ask about: the nearest from the source's oldest on, of the active numbers,
// the xmins of the snapshots at their places, and the next number.
pub fn horizon<S: StatusSource>(active: &Active, places: &Places, source: &S) -> u32
    ensures { result ≡ horizon_of (S.meaning source.now).oldest (S.meaning source.now).next active.now places.now }
{
    let window = source.window();
    let of_active = nearest(window.oldest, window.next, active.as_slice());
    places.nearest_xmin(window.oldest, of_active)
}
