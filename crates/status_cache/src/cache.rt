// The cache as a status source.
ghost use Rattle.std.specs.Prelude.{◌≡◌};
ghost use Rattle.std.proofs.Props.{props};
ghost use Rattle.status_cache.specs.Truth.{Truthful};

use crate::slots::Slots;
use xid::source::{StatusSource, TurnedDown};
use xid::statuses::{End, Status};
use xid::window::Window;

// A source, and slots that tell what it means.
#[derive(Drop)]
pub struct StatusCache<S: StatusSource> {
    source: S,
    slots: Slots,
    ghost truthful: { Truthful (S.meaning source) slots.at } by { Prim.hlevel props },
}

impl<S: StatusSource> StatusCache<S> {
    // The source under an empty cache.
    #[tactic(auto, using(crate::proofs::Truths::emptied_truthful))]
    pub fn new(source: S) -> StatusCache<S>
        ensures { result.source ≡ source }
    {
        StatusCache {
            source,
            slots: Slots::empty(),
        }
    }
}

impl<S: StatusSource> StatusSource for StatusCache<S> {
    ghost meaning = { λ c. S.meaning c.source };

    ghost lawful = { λ c. S.lawful c.source };

    fn window(&self) -> Window {
        self.source.window()
    }

    fn is_full(&self) -> bool {
        self.source.is_full()
    }

    fn status(&mut self, x: u32) -> Status {
        if let Some(end) = self.slots.find(x) {
            return end.into();
        }
        let status = self.source.status(x);
        self.slots.note(x, status);
        status
    }

    // The number that opens was unknown until now, so no slot holds it.
    fn open_next(&mut self) -> Result<u32, TurnedDown> {
        self.source.open_next()
    }

    // The number that ends was open until now, so no slot holds it.
    fn close(&mut self, x: u32, end: End) -> Result<(), TurnedDown> {
        self.source.close(x, end)
    }

    // The numbers given up are unknown from now on, and come round again with another status.
    #[tactic(auto, using(crate::proofs::Truths::emptied_truthful))]
    fn forget(&mut self, c: u32) -> Result<(), TurnedDown> {
        self.source.forget(c)?;
        self.slots = Slots::empty();
        Ok(())
    }
}
