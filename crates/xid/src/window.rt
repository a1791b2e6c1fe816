// The window of a status source.
ghost use Rattle.std.specs.Prelude.{◌≡◌};
ghost use Rattle.xid.specs.Numbers.{distance as distance_of, in_window};

use crate::numbers::{FIRST, distance};

// The numbers from `oldest` on before `next`, round the end.
#[derive(Clone, Copy, PartialEq, Eq, Debug)]
pub struct Window {
    pub oldest: u32,
    pub next: u32,
}

impl Window {
    // How far the next number lies from the oldest.
    pub fn len(self) -> u32
        ensures { result ≡ distance_of self.oldest self.next }
    {
        distance(self.oldest, self.next)
    }

    pub fn contains(self, x: u32) -> bool
        ensures { result ≡ in_window self.oldest self.next x }
    {
        x >= FIRST && distance(self.oldest, x) < self.len()
    }
}
