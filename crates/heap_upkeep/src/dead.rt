// Which versions of a page are dead, and what each links on to: the table by which a page is pruned.
ghost use Rattle.std.specs.Prelude.{◌≡◌, ◌≤◌, []};
ghost use Rattle.page.specs.Headers.{count_of};
ghost use Rattle.page.specs.LinePointers.{pointer_at};
ghost use Rattle.page.specs.Slots.{decoded, slot_of};
ghost use Rattle.page_check.specs.Marking.{LiesIn, AllLie};
ghost use Rattle.heap_upkeep.specs.Dead.{is_dead, dead_slot, TellsMembers, AlongNames};

use heap_read::fates::{CreatorFate, RemoverFate, creator_fate, remover_fate};
use heap_read::links::link_of;
use page::{Page, Pointer, VersionHeader, pointer_at, pointer_count, version_at};
use page_prune::{Member, Members, NUMBERS};
use xid::numbers::precedes;
use xid::source::StatusSource;

// Whether a version is dead at a horizon: its creator aborted, or its remover committed before everyone who may still look.
pub fn is_dead<S: StatusSource>(source: &mut S, horizon: u32, version: &VersionHeader) -> bool
    ensures answer { result ≡ is_dead (S.meaning source.old).status horizon (decoded version.now []) }
    ensures kept { S.meaning source.new ≡ S.meaning source.old }
{
    let creator = creator_fate(source, version);
    creator == CreatorFate::Aborted
        || matches!(creator, CreatorFate::Frozen | CreatorFate::Committed)
            && precedes(version.remover, horizon)
            && remover_fate(source, version) == RemoverFate::Committed
}

fn is_slot_dead<S: StatusSource>(source: &mut S, horizon: u32, page: &Page, number: u16) -> bool
    requires { LiesIn (pointer_at page.now number) }
    ensures answer { result ≡ dead_slot (S.meaning source.old).status horizon (slot_of page.now (pointer_at page.now number)) }
    ensures kept { S.meaning source.new ≡ S.meaning source.old }
{
    // Taken apart here, and not by `version_in`, since a prune asks this of each pointer.
    let Pointer::Normal { offset, len: _ } = pointer_at(page, number) else {
        return false;
    };
    let Some(version) = version_at(page, offset) else {
        return false;
    };
    is_dead(source, horizon, &version)
}

// The table by which a page is pruned at a horizon. Whatever the source says, it leads along the names of the page.
pub fn members_of<S: StatusSource>(source: &mut S, page: &Page, block: u32, horizon: u32) -> Members
    requires few { count_of page.now ≤ 291 }
    requires lie { AllLie page.now }
    ensures along { AlongNames block page.now result }
    ensures told { TellsMembers (S.meaning source.old).status horizon block page.now result }
    ensures kept { S.meaning source.new ≡ S.meaning source.old }
{
    let mut members = [Member::default(); NUMBERS];
    // A range, and not `pointer_numbers`: over that the loop runs by an iterator, and its invariant has no number.
    for number in 1..pointer_count(page) + 1 {
        members[number as usize] = Member {
            next: link_of(source, page, block, number),
            dead: is_slot_dead(source, horizon, page, number),
        };
    }
    members
}
