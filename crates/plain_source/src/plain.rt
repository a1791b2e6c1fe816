// What the plain source holds, and what it keeps.
ghost use Rattle.std.specs.Prelude.{◌≡◌, length};
ghost use Rattle.plain_source.specs.Bounded.{stored_at, Bounded};

use xid::statuses::Status;
use xid::window::Window;

// How many places there are.
pub const PLACES: usize = 16;

// The statuses of the numbers of a window, each at its distance from the oldest.
#[derive(Drop)]
pub struct PlainSource {
    window: Window,
    statuses: [Status; PLACES],
    ghost all: { length statuses ≡ 16 },
    ghost bounded: { Bounded window.oldest window.next (stored_at statuses window.oldest) },
}

mod calls;
