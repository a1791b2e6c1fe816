// The active transactions, in order of beginning.
ghost use Rattle.std.specs.Prelude.{◌≡◌, ◌≤◌, [], length};
ghost use Rattle.snapshot.specs.Snapshots.{data_of, Taken};
ghost use Rattle.snapshot.specs.Lists.{is_listed};
ghost use Rattle.snapshot.specs.Operations.{enter_answer, after_enter, strike_answer, after_strike};

use crate::lists::XidList;
use crate::snapshots::Snapshot;
use refusal::Refusal;
use std::marker::Model;
use xid::source::StatusSource;

#[derive(Drop)]
pub struct Active {
    numbers: XidList,
}

// Callers see the numbers. That no more than 64 are listed they learn from each method.
impl Model for Active {
    ghost use Rattle.std.specs.Prelude.{List, ℕ};
    ghost use Rattle.snapshot.specs.Lists.{numbers_of};

    ghost Value = { List ℕ };

    ghost view = { λ a. numbers_of a.numbers };
}

impl Active {
    pub fn new() -> Active
        ensures { result ≡ [] }
    {
        Active {
            numbers: XidList::new(),
        }
    }

    pub fn as_slice(&self) -> &[u32]
        ensures numbers { result.now ≡ self.now }
        ensures few { length self.now ≤ 64 }
    {
        self.numbers.as_slice()
    }

    pub fn contains(&self, x: u32) -> bool
        ensures answer { result ≡ is_listed x self.now }
        ensures few { length self.now ≤ 64 }
    {
        self.numbers.contains(x)
    }

    // Lists a number that was opened, unless 64 are listed.
    pub fn enter(&mut self, x: u32) -> Result<(), Refusal>
        ensures answer { result ≡ enter_answer self.old }
        ensures numbers { self.new ≡ after_enter self.old x }
        ensures few { length self.old ≤ 64 }
    {
        if !self.numbers.push(x) {
            return Err(Refusal::TooManyActive);
        }
        Ok(())
    }

    // Strikes a number that ended, if it is listed.
    pub fn strike(&mut self, x: u32) -> Result<(), Refusal>
        ensures answer { result ≡ strike_answer self.old x }
        ensures numbers { self.new ≡ after_strike self.old x }
        ensures few { length self.old ≤ 64 }
    {
        if !self.numbers.contains(x) {
            return Err(Refusal::NotActive);
        }
        self.numbers.retain(|y| y != x);
        Ok(())
    }

    // The snapshot of this moment, with what holds of every snapshot.
    pub fn snapshot<S: StatusSource>(&self, source: &S) -> Snapshot
        ensures taken { Taken (S.meaning source.now) self.now (data_of result) }
        ensures few { length self.now ≤ 64 }
    {
        let window = source.window();
        Snapshot::of_window(window, &self.numbers)
    }
}
