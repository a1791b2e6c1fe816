// The slots of the cache, which know nothing of a source.
ghost use Rattle.std.specs.Prelude.{◌≡◌, None, replicate};
ghost use Rattle.status_cache.specs.Slots.{held_for, kept, noted};

use xid::statuses::{End, Status};

// A number, and how it ended.
#[derive(Clone, Copy, PartialEq, Eq, Debug)]
pub struct Ended {
    pub number: u32,
    pub end: End,
}

#[derive(Drop)]
pub struct Slots {
    at: [Option<Ended>; 64],
}

impl Slots {
    pub fn empty() -> Slots
        ensures { result.at ≡ replicate 64 None }
    {
        Slots { at: [None; 64] }
    }

    // How x ended, if its slot holds it.
    pub fn find(&self, x: u32) -> Option<End>
        ensures { result ≡ held_for self.now.at x }
    {
        let slot = self.at[(x % 64) as usize];
        match slot {
            Some(ended) if ended.number == x => Some(ended.end),
            _ => None,
        }
    }

    // Puts x into its slot, in the place of what was there.
    fn keep(&mut self, x: u32, end: End)
        ensures { self.new.at ≡ kept self.old.at x end }
    {
        self.at[(x % 64) as usize] = Some(Ended { number: x, end });
    }

    // Keeps x if it ended. An open number may still end, and one outside the window may yet be opened.
    pub fn note(&mut self, x: u32, status: Status)
        ensures { self.new.at ≡ noted self.old.at x status }
    {
        match status {
            Status::Committed => self.keep(x, End::Commit),
            Status::Aborted => self.keep(x, End::Abort),
            Status::Open | Status::Unknown => {}
        }
    }
}
