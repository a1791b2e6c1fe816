// The interface of a status source, by what it means.
//
// A source means an oldest number, a next number, whether it is full, and a status for each number of its window. Every
// value of an implementation means something lawful: what its fields have to keep for that stands in the type, as ghost
// fields. So no call has a premise, and each promises its answer and the meaning afterwards, of every source.
ghost use Rattle.std.specs.Prelude.{◌≡◌};
ghost use Rattle.xid.specs.Meaning.{Meaning, Lawful, window_of, open_answer, after_open, close_answer, after_close, forget_answer, after_forget};

use crate::statuses::{End, Status};
use crate::window::Window;

// The one reason for which each call can be turned down.
#[derive(Clone, Copy, PartialEq, Eq, Debug)]
pub enum TurnedDown {
    // open: the source is full
    Full,
    // close: the number is not open
    NotOpen,
    // forget: the number is neither in the window nor the next one, or an open number lies before it
    NotForgettable,
}

pub trait StatusSource {
    // the oldest and the next number, whether the source is full, and the statuses
    ghost meaning: { Self → Meaning };

    // the three laws, and that the numbers of the window have a status, and no other
    ghost lawful: { (s : Self) → Lawful (meaning s) };

    // The window, from the oldest number on before the next.
    fn window(&self) -> Window
        ensures { result ≡ window_of (meaning self.now) };

    fn is_full(&self) -> bool
        ensures { result ≡ (meaning self.now).full };

    // The status of x. A cache may fill, so that what stays of the source is said at each call.
    fn status(&mut self, x: u32) -> Status
        ensures answer { result ≡ (meaning self.old).status x }
        ensures kept { meaning self.new ≡ meaning self.old };

    // Opens the next number, unless the source is full.
    fn open_next(&mut self) -> Result<u32, TurnedDown>
        ensures answer { result ≡ open_answer (meaning self.old) }
        ensures meaning { meaning self.new ≡ after_open (meaning self.old) (meaning self.new).full };

    // Ends the open number x.
    fn close(&mut self, x: u32, end: End) -> Result<(), TurnedDown>
        ensures answer { result ≡ close_answer (meaning self.old) x }
        ensures meaning { meaning self.new ≡ after_close (meaning self.old) x end (meaning self.new).full };

    // Gives up the numbers before c.
    fn forget(&mut self, c: u32) -> Result<(), TurnedDown>
        ensures answer { result ≡ forget_answer (meaning self.old) c }
        ensures meaning { meaning self.new ≡ after_forget (meaning self.old) c (meaning self.new).full };
}
