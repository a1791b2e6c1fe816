// The plain source as a status source.
ghost use Rattle.std.specs.Prelude.{◌≡◌, ℕ, ◌+◌, slice_index_or};
ghost use Rattle.xid.specs.Numbers.{distance as distance_of};
ghost use Rattle.plain_source.specs.Plain.{meaning_of, Made};
ghost use Rattle.plain_source.specs.Laws.{plain_lawful};

use super::{PLACES, PlainSource};
use xid::lookup::{Lookup, is_forgettable};
use xid::numbers::{FIRST, distance, successor};
use xid::source::{StatusSource, TurnedDown};
use xid::statuses::{End, Status};
use xid::window::Window;

// The distance at which the source is full.
const LIMIT: u32 = 8;

// The statuses `by` places further down; unknown where none comes down.
fn shifted(statuses: &[Status; PLACES], by: u32) -> [Status; PLACES]
    ensures { (k : ℕ) → slice_index_or result k Status.Unknown ≡ slice_index_or statuses.now (by + k) Status.Unknown }
{
    let mut down = [Status::Unknown; PLACES];
    if let Some(left) = statuses.get(by as usize..) {
        down[..left.len()].copy_from_slice(left);
    }
    down
}

impl PlainSource {
    // A source with no number in its window, unless the oldest number is none that a transaction can have.
    pub fn new(oldest: u32) -> Option<PlainSource>
        ensures { Made oldest result }
    {
        if oldest < FIRST {
            return None;
        }
        Some(PlainSource {
            window: Window {
                oldest,
                next: oldest,
            },
            statuses: [Status::Unknown; PLACES],
        })
    }

    // The place of a number of the window.
    fn place(&self, x: u32) -> usize
        ensures { result ≡ distance_of self.now.window.oldest x }
    {
        distance(self.window.oldest, x) as usize
    }
}

impl Lookup for PlainSource {
    ghost statuses = { λ p. (meaning_of p).status };

    fn look(&self, x: u32) -> Status {
        if !self.window.contains(x) {
            return Status::Unknown;
        }
        self.statuses[self.place(x)]
    }
}

impl StatusSource for PlainSource {
    ghost meaning = { meaning_of };

    ghost lawful = { plain_lawful };

    fn window(&self) -> Window {
        self.window
    }

    fn is_full(&self) -> bool {
        self.window.len() >= LIMIT
    }

    fn status(&mut self, x: u32) -> Status {
        self.look(x)
    }

    #[tactic(auto, using(crate::proofs::Changes::opened_bounded, crate::proofs::Changes::opened_meaning))]
    fn open_next(&mut self) -> Result<u32, TurnedDown> {
        if self.is_full() {
            return Err(TurnedDown::Full);
        }
        let opened = self.window.next;
        let place = self.place(opened);
        self.statuses[place] = Status::Open;
        self.window.next = successor(opened);
        Ok(opened)
    }

    #[tactic(auto, using(crate::proofs::Changes::closed_bounded, crate::proofs::Changes::closed_meaning))]
    fn close(&mut self, x: u32, end: End) -> Result<(), TurnedDown> {
        if !self.look(x).is_open() {
            return Err(TurnedDown::NotOpen);
        }
        let place = self.place(x);
        self.statuses[place] = end.into();
        Ok(())
    }

    fn forget(&mut self, c: u32) -> Result<(), TurnedDown> {
        if !is_forgettable(self.window, c, self) {
            return Err(TurnedDown::NotForgettable);
        }
        self.statuses = shifted(&self.statuses, distance(self.window.oldest, c));
        self.window.oldest = c;
        Ok(())
    }
}
