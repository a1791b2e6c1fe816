// What a prune makes of each line pointer.
ghost use Rattle.std.specs.Prelude.{◌≡◌, ℕ, ◌≤◌};
ghost use Rattle.std.specs.List.{All};
ghost use Rattle.std.specs.Option.{unwrap_or};
ghost use Rattle.page.specs.Headers.{count_of};
ghost use Rattle.page.specs.LinePointers.{pointer_at};
ghost use Rattle.page.specs.Slots.{slot_of, view_of};
ghost use Rattle.page_check.specs.Marking.{AllLie, AllLie-prop};
ghost use Rattle.page_prune.specs.Chains.{start_of, chain_of};
ghost use Rattle.page_prune.specs.Members.{next_in, dead_in, ahead, dead_along};
ghost use Rattle.page_prune.specs.Pruned.{outcome, root_outcome, heap_only_outcome, is_change, outcome_in};
ghost use Rattle.page_prune.specs.Marking.{Marked, Decides};

use crate::chains::{Chain, Members, NUMBERS, is_dead};
use crate::marks::{ChainMark, Marks, mark_lost, mark_members};
use page::{Mark, Page, Pointer, pointer_at, version_at};
use page_check::is_heap_only;

// What becomes of a line pointer: it becomes unused, dead, or a redirect to the number given, if it does not stay.
#[derive(Clone, Copy, PartialEq, Eq)]
pub(crate) enum Outcome {
    Stays,
    Freed,
    MadeDead,
    Redirected(u16),
}

impl Outcome {
    pub(crate) fn is_change(self) -> bool
        ensures { result ≡ is_change self }
    {
        self != Outcome::Stays
    }
}

// A root whose chain has a dead member leads to the first that is left, or is dead where none is.
fn root_outcome(chain: Chain) -> Outcome
    ensures { result ≡ root_outcome (dead_along chain.entry) (ahead chain.entry) }
{
    let mut left = chain.left();
    // Only a member lost takes from the limit: a chain that loses none is left whole.
    if left.limit == chain.limit {
        return Outcome::Stays;
    }
    match left.next() {
        Some(first) => Outcome::Redirected(first),
        None => Outcome::MadeDead,
    }
}

// A heap-only version goes where its chain loses it, or where it is dead and in no chain.
fn heap_only_outcome(mark: ChainMark, dead: bool) -> Outcome
    ensures { result ≡ heap_only_outcome mark.lost mark.chained dead }
{
    if mark.lost || dead && !mark.chained {
        Outcome::Freed
    } else {
        Outcome::Stays
    }
}

// What becomes of each line pointer, by its number.
pub(crate) type Outcomes = [Outcome; NUMBERS];

// The outcome of a number; a pointer that the table does not have stays.
pub(crate) fn outcome_at(outcomes: &Outcomes, number: u16) -> Outcome
    ensures { result ≡ outcome_in outcomes.now number }
{
    outcomes
        .get(number as usize)
        .copied()
        .unwrap_or(Outcome::Stays)
}

// A page with the links along its names, of which none leads out of the table. It has no block, as the page that the check has
// made sure of does, so it says for itself how the versions lie. A number is an argument with its bounds: a type for a number of a
// page would have to hold the page as well.
#[derive(Clone, Copy)]
pub(crate) struct LinkedPage<'a> {
    pub(crate) page: &'a Page,
    pub(crate) members: &'a Members,
    // How many line pointers the page has, read from its header once for all of its chains.
    pub(crate) count: u16,
    ghost counted: { count ≡ count_of page.now },
    ghost few: { count_of page.now ≤ 291 },
    ghost lie: { AllLie page.now } by { AllLie-prop page.now },
    ghost links: { (n : ℕ) → next_in members.now n ≤ 291 },
    ghost starts: { (n : ℕ) → 1 ≤ n → n ≤ count_of page.now → start_of n (slot_of page.now (pointer_at page.now n)) ≤ 291 },
}

impl<'a> LinkedPage<'a> {
    // Where the chain of a line pointer begins, if it has one.
    fn chain_start(&self, number: u16) -> Option<u16>
        requires first { 1 ≤ number }
        requires last { number ≤ count_of self.now.page.now }
        ensures { unwrap_or result 0 ≡ start_of number (slot_of self.now.page.now (pointer_at self.now.page.now number)) }
    {
        match pointer_at(self.page, number) {
            Pointer::Redirect(target) => Some(target),
            Pointer::Normal { offset, len: _ } => {
                let version = version_at(self.page, offset)?;
                (!version.has(Mark::HeapOnly)).then_some(number)
            }
            _ => None,
        }
    }

    // The chain of a line pointer, which has no more members than the page has pointers.
    fn chain_of(&self, number: u16) -> Chain<'a>
        requires first { 1 ≤ number }
        requires last { number ≤ count_of self.now.page.now }
        ensures members { result.members.now ≡ self.now.members.now }
        ensures ahead { ahead result ≡ chain_of (next_in self.now.members.now) (view_of self.now.page.now) number }
        ensures inside { All (λ k. k ≤ 291) (ahead result) }
    {
        Chain {
            members: self.members,
            at: self.chain_start(number),
            limit: self.count + 1,
        }
    }

    // The marks of the chains of all roots.
    fn marks(&self) -> Marks
        ensures { Marked (next_in self.now.members.now) (dead_in self.now.members.now) (view_of self.now.page.now) result }
    {
        let mut marks = [ChainMark::default(); NUMBERS];
        // A range, and not `pointer_numbers`: over that the loop runs by an iterator, and its invariant has no number.
        for number in 1..self.count + 1 {
            let chain = self.chain_of(number);
            mark_members(&mut marks, chain);
            mark_lost(&mut marks, chain);
        }
        marks
    }

    fn outcome_of(&self, marks: &Marks, number: u16) -> Outcome
        requires first { 1 ≤ number }
        requires last { number ≤ count_of self.now.page.now }
        requires marked { Marked (next_in self.now.members.now) (dead_in self.now.members.now) (view_of self.now.page.now) marks.now }
        ensures { result ≡ outcome (next_in self.now.members.now) (dead_in self.now.members.now) (view_of self.now.page.now) number }
    {
        if is_heap_only(self.page, number) {
            heap_only_outcome(marks[number as usize], is_dead(self.members, number))
        } else {
            root_outcome(self.chain_of(number))
        }
    }

    // What becomes of each line pointer.
    pub(crate) fn outcomes(&self) -> Outcomes
        ensures { Decides (next_in self.now.members.now) (dead_in self.now.members.now) self.now.page.now result }
    {
        let marks = self.marks();
        let mut outcomes = [Outcome::Stays; NUMBERS];
        // A range, and not `pointer_numbers`: over that the loop runs by an iterator, and its invariant has no number.
        for number in 1..self.count + 1 {
            outcomes[number as usize] = self.outcome_of(&marks, number);
        }
        outcomes
    }
}
