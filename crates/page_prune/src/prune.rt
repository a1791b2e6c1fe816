// A page pruned, by what becomes of each of its line pointers.
ghost use Rattle.std.specs.Prelude.{◌≡◌, ◌≤◌};
ghost use Rattle.page.specs.Headers.{count_of};
ghost use Rattle.page.specs.LinePointers.{pointer_at};
ghost use Rattle.page.specs.Slots.{slot_of, view_of};
ghost use Rattle.page_compact.specs.Compaction.{LawfulPage};
ghost use Rattle.page_prune.specs.Members.{next_in, dead_in};
ghost use Rattle.page_prune.specs.Pruned.{Prunable, outcome_in, slot_after, loses_version, becomes_dead, repointed, repoint_to, pruned_page, versions_removed, pointers_made_dead};
ghost use Rattle.page_prune.specs.Marking.{changed_along, removed_along, made_dead_along, pruned_along};

use crate::chains::Members;
use crate::outcomes::{LinkedPage, Outcome, Outcomes, outcome_at};
use page::{Page, Pointer, pointer_at, pointer_count, pointer_numbers, write32};
use page_compact::compact_page;

// How many versions a prune removed, and how many line pointers it made dead.
#[derive(Clone, Copy, PartialEq, Eq, Debug)]
pub struct PruneCount {
    pub removed: u16,
    pub made_dead: u16,
}

// A page and its outcomes are two parameters, since the page changes while the outcomes are read.

// Whether a line pointer changes.
fn any_change(page: &Page, outcomes: &Outcomes) -> bool
    ensures { result ≡ changed_along (outcome_in outcomes.now) page.now }
{
    pointer_numbers(page).any(|number| outcome_at(outcomes, number).is_change())
}

fn removes_version(page: &Page, number: u16, outcome: Outcome) -> bool
    ensures { result ≡ loses_version (slot_of page.now (pointer_at page.now number)) (slot_after outcome (slot_of page.now (pointer_at page.now number))) }
{
    matches!(pointer_at(page, number), Pointer::Normal { .. }) && outcome.is_change()
}

fn count_removed(page: &Page, outcomes: &Outcomes) -> u16
    ensures { result ≡ removed_along (outcome_in outcomes.now) page.now }
{
    pointer_numbers(page)
        .filter(|number| removes_version(page, *number, outcome_at(outcomes, *number)))
        .count() as u16
}

fn makes_dead(page: &Page, number: u16, outcome: Outcome) -> bool
    ensures { result ≡ becomes_dead (slot_of page.now (pointer_at page.now number)) (slot_after outcome (slot_of page.now (pointer_at page.now number))) }
{
    outcome == Outcome::MadeDead && pointer_at(page, number) != Pointer::Dead
}

// Like `count_removed`, but for the test: each is one chain, and no shorter as a function over a test.
fn count_made_dead(page: &Page, outcomes: &Outcomes) -> u16
    ensures { result ≡ made_dead_along (outcome_in outcomes.now) page.now }
{
    pointer_numbers(page)
        .filter(|number| makes_dead(page, *number, outcome_at(outcomes, *number)))
        .count() as u16
}

// Makes a line pointer say what becomes of it.
fn repoint(page: &mut Page, number: u16, outcome: Outcome)
    requires { number ≤ 2042 }
    ensures { page.new ≡ repointed page.old number outcome }
{
    let pointer = match outcome {
        Outcome::Stays => return,
        Outcome::Freed => Pointer::Unused,
        Outcome::MadeDead => Pointer::Dead,
        Outcome::Redirected(target) => Pointer::Redirect(target),
    };
    write32(page, 20 + 4 * number, pointer.into());
}

// Makes each line pointer say what becomes of it.
fn repoint_all(page: &mut Page, outcomes: &Outcomes)
    ensures { page.new ≡ repoint_to page.old (outcome_in outcomes.now) (count_of page.old) }
{
    // A range, and not `pointer_numbers`: over that the loop runs by an iterator, and its invariant has no number.
    for number in 1..pointer_count(page) + 1 {
        repoint(page, number, outcome_at(outcomes, number));
    }
}

// Prunes a page by outcomes that leave it lawful.
fn prune_by(page: &mut Page, outcomes: &Outcomes) -> PruneCount
    requires { LawfulPage (repoint_to page.old (outcome_in outcomes.now) (count_of page.old)) }
    ensures page { page.new ≡ pruned_along (outcome_in outcomes.now) page.old }
    ensures removed { result.removed ≡ removed_along (outcome_in outcomes.now) page.old }
    ensures dead { result.made_dead ≡ made_dead_along (outcome_in outcomes.now) page.old }
{
    let counts = PruneCount {
        removed: count_removed(page, outcomes),
        made_dead: count_made_dead(page, outcomes),
    };
    if any_change(page, outcomes) {
        repoint_all(page, outcomes);
        compact_page(page);
    }
    counts
}

// Prunes a lawful page. `members` has for each pointer number that of the heap-only version that it links on to, and for a
// redirect its target, and says for each whether its version is dead.
pub fn prune_page(page: &mut Page, members: &Members) -> PruneCount
    requires { Prunable page.old (next_in members.now) }
    ensures page { page.new ≡ pruned_page (next_in members.now) (dead_in members.now) page.old }
    ensures removed { result.removed ≡ versions_removed (next_in members.now) (dead_in members.now) (view_of page.old) }
    ensures dead { result.made_dead ≡ pointers_made_dead (next_in members.now) (dead_in members.now) (view_of page.old) }
{
    let count = pointer_count(page);
    let linked = LinkedPage {
        page,
        members,
        count,
    };
    let outcomes = linked.outcomes();
    prune_by(page, &outcomes)
}
