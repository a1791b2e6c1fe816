// The members of all chains are marked by number first, so that one pass decides what becomes of each pointer.
ghost use Rattle.std.specs.Prelude.{◌≡◌, ℕ, ◌≤◌, ◌||◌};
ghost use Rattle.std.specs.List.{All};
ghost use Rattle.page_prune.specs.Chains.{member, lost};
ghost use Rattle.page_prune.specs.Members.{ahead, dead_along};
ghost use Rattle.page_prune.specs.Marking.{is_chained, is_lost};

use crate::chains::{Chain, NUMBERS};

// Whether a version lies in a chain, and whether the chain loses it.
#[derive(Clone, Copy, Default)]
pub(crate) struct ChainMark {
    pub(crate) chained: bool,
    pub(crate) lost: bool,
}

// The marks by pointer number.
pub(crate) type Marks = [ChainMark; NUMBERS];

// Marks the members of a chain.
pub(crate) fn mark_members(marks: &mut Marks, chain: Chain)
    requires { All (λ k. k ≤ 291) (ahead chain) }
    ensures chained { (x : ℕ) → x ≤ 291 → is_chained marks.new x ≡ (member x (ahead chain.entry) || is_chained marks.old x) }
    ensures lost { (x : ℕ) → is_lost marks.new x ≡ is_lost marks.old x }
{
    for number in chain {
        marks[number as usize].chained = true;
    }
}

// Marks the members that a chain loses. A pass of its own, since it differs in the field and in how far it goes.
pub(crate) fn mark_lost(marks: &mut Marks, chain: Chain)
    requires { All (λ k. k ≤ 291) (ahead chain) }
    ensures lost { (x : ℕ) → x ≤ 291 → is_lost marks.new x ≡ (member x (lost (dead_along chain.entry) (ahead chain.entry)) || is_lost marks.old x) }
    ensures chained { (x : ℕ) → is_chained marks.new x ≡ is_chained marks.old x }
{
    for number in chain.take(chain.lost_count()) {
        marks[number as usize].lost = true;
    }
}
