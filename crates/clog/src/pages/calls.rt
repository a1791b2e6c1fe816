// Two-bit pages as a status source.
ghost use Rattle.std.specs.Prelude.{◌≡◌, MatchResult};
ghost use Rattle.xid.specs.Meaning.{open_answer, after_open, close_answer, after_close, forget_answer, after_forget};
ghost use Rattle.clog.specs.Sound.{fitting_size};
ghost use Rattle.clog.specs.Pages.{bytes_of, meaning_of, Made, NotMade, OpenLeft, CloseLeft, ForgetLeft};
ghost use Rattle.clog.specs.Laws.{pages_lawful};

use super::{Refused, TwoBitPages};
use crate::codes::{read_slot, write_slot};
use refusal::Refusal;
use xid::lookup::{Lookup, is_forgettable};
use xid::numbers::{FIRST, successor};
use xid::source::{StatusSource, TurnedDown};
use xid::statuses::{End, Status};
use xid::window::Window;

// Whether the memory has 16 to 16,384 bytes, a power of two.
fn size_fits(size: usize) -> bool
    ensures { result ≡ fitting_size size }
{
    size >= 16 && size <= 16_384 && size.is_power_of_two()
}

impl<'a> TwoBitPages<'a> {
    // Pages with no number in their window. What the memory holds plays no part, since opening a number clears its slot.
    pub fn new(memory: &'a mut [u8], oldest: u32) -> Result<TwoBitPages<'a>, Refused<'a>>
        ensures { MatchResult result (λ p. Made memory.old oldest p) (λ e. NotMade memory.old oldest e.memory.now e.why) }
    {
        if !size_fits(memory.len()) {
            return Err(Refused {
                memory,
                why: Refusal::WrongSize,
            });
        }
        if oldest < FIRST {
            return Err(Refused {
                memory,
                why: Refusal::NumberOutOfRange,
            });
        }
        Ok(TwoBitPages {
            memory,
            window: Window {
                oldest,
                next: oldest,
            },
        })
    }
}

impl<'a> Lookup for TwoBitPages<'a> {
    ghost statuses = { λ p. (meaning_of p).status };

    fn look(&self, x: u32) -> Status {
        if !self.window.contains(x) {
            return Status::Unknown;
        }
        read_slot(self.memory, x)
    }
}

impl<'a> StatusSource for TwoBitPages<'a> {
    ghost meaning = { meaning_of };

    ghost lawful = { pages_lawful };

    fn window(&self) -> Window {
        self.window
    }

    // Full when the next number lies 4 * length or more from the oldest.
    fn is_full(&self) -> bool {
        self.memory.len() <= (self.window.len() / 4) as usize
    }

    fn status(&mut self, x: u32) -> Status
        ensures answer { result ≡ (meaning_of self.old).status x }
        ensures kept { meaning_of self.new ≡ meaning_of self.old }
        ensures left { bytes_of self.new ≡ bytes_of self.old }
    {
        self.look(x)
    }

    // Opens the next number. Its slot is cleared, of whatever the lap before left in it.
    #[tactic(auto, using(crate::proofs::Changes::opened_meaning))]
    fn open_next(&mut self) -> Result<u32, TurnedDown>
        ensures answer { result ≡ open_answer (meaning_of self.old) }
        ensures meaning { meaning_of self.new ≡ after_open (meaning_of self.old) (meaning_of self.new).full }
        ensures left { OpenLeft self.old self.new }
    {
        if self.is_full() {
            return Err(TurnedDown::Full);
        }
        let opened = self.window.next;
        write_slot(self.memory, opened, Status::Open);
        self.window.next = successor(opened);
        Ok(opened)
    }

    #[tactic(auto, using(crate::proofs::Changes::closed_sound, crate::proofs::Changes::closed_meaning))]
    fn close(&mut self, x: u32, end: End) -> Result<(), TurnedDown>
        ensures answer { result ≡ close_answer (meaning_of self.old) x }
        ensures meaning { meaning_of self.new ≡ after_close (meaning_of self.old) x end (meaning_of self.new).full }
        ensures left { CloseLeft self.old self.new x end }
    {
        if !self.look(x).is_open() {
            return Err(TurnedDown::NotOpen);
        }
        write_slot(self.memory, x, end.into());
        Ok(())
    }

    // Moves the oldest number on to c, if c is forgettable.
    #[tactic(auto, using(crate::proofs::Changes::forgot_sound, crate::proofs::Changes::forgot_meaning))]
    fn forget(&mut self, c: u32) -> Result<(), TurnedDown>
        ensures answer { result ≡ forget_answer (meaning_of self.old) c }
        ensures meaning { meaning_of self.new ≡ after_forget (meaning_of self.old) c (meaning_of self.new).full }
        ensures left { ForgetLeft self.old self.new c }
    {
        if !is_forgettable(self.window, c, self) {
            return Err(TurnedDown::NotForgettable);
        }
        self.window.oldest = c;
        Ok(())
    }
}
