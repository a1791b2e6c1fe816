// Pruning of a heap page: dead versions go, and what is left is laid anew.
//
// Each chain that has a dead member loses the last of them and all members before it; its root then leads to the first member
// left, or is dead. Dead heap-only versions in no chain go as well. Which versions are dead, and what each links on to, is
// decided by others, from a status source: this crate takes both as one table by pointer number, for any links along the
// names of a lawful page.
//
// `prune_page` leaves the bytes and answers the two numbers that the definitions of specs/Pruned.antt say, in time linear in
// the page and with no allocation; every walk is bounded, also where versions off every root stand in a circle. The laws say
// what that comes to: the decoded slots afterwards, that a lawful page stays lawful, that a page of which no pointer changed
// stays to the byte, that no chain has a dead member left, and that no root becomes unused.

#![tactic(auto)]

mod chains;
mod marks;
mod outcomes;
mod prune;

ghost use Rattle.page_prune.specs.Example.{WorkedExample};
ghost use Rattle.page_prune.specs.Laws.{PruningKeeps, ChainsEnd, NothingDeadLeft, ChangeShows, RootsStay};

pub use chains::{Member, Members, NUMBERS};
pub use prune::{PruneCount, prune_page};

// The slots of a pruned page are the pruned slots, and a lawful page stays lawful.
pub fn pruning_keeps()
    ensures { PruningKeeps }
{}

// The chains of a lawful page end.
pub fn chains_end()
    ensures { ChainsEnd }
{}

// After a prune no chain of the page has a dead member.
pub fn nothing_dead_left()
    ensures { NothingDeadLeft }
{}

// A page is laid anew only where a slot of it changes.
pub fn change_shows()
    ensures { ChangeShows }
{}

// A root never becomes unused.
pub fn roots_stay()
    ensures { RootsStay }
{}

// The definitions say of the worked example of docs/upkeep.md what is said there.
pub fn worked_example()
    ensures { WorkedExample }
{}
