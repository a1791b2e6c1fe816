// The lowest visible version above an address.
//
// A source and a snapshot are two parameters, as in all of this crate: a struct with both, passed as `&mut`, would owe in each
// contract that the snapshot stays too. For the same reason what stays of a source is said at each call.
ghost use Rattle.std.specs.Prelude.{◌≡◌, ◌≤◌, length};
ghost use Rattle.page.specs.LinePointers.{pointer_at};
ghost use Rattle.page.specs.Slots.{slot_of};
ghost use Rattle.page_check.specs.Marking.{LiesIn, AllLie, PagesLie};
ghost use Rattle.snapshot.specs.Snapshots.{data_of};
ghost use Rattle.heap_read.specs.Reading.{visible_slot, next_on, start_in, next_in};

use crate::fates::is_visible;
use page::{Address, Page, Pointer, pointer_at, pointer_count, version_at};
use snapshot::snapshots::Snapshot;
use xid::source::StatusSource;

// Whether the version of a line pointer is visible: not where it has none.
pub fn shows<S: StatusSource>(source: &mut S, snapshot: &Snapshot, page: &Page, number: u16) -> bool
    requires { LiesIn (pointer_at page.now number) }
    ensures answer { result ≡ visible_slot (S.meaning source.old).status (data_of snapshot.now) (slot_of page.now (pointer_at page.now number)) }
    ensures kept { S.meaning source.new ≡ S.meaning source.old }
{
    // Taken apart here, and not by `version_in`: a walk asks this of each member, and what it does not look at stays unread.
    let Pointer::Normal { offset, len: _ } = pointer_at(page, number) else {
        return false;
    };
    let Some(version) = version_at(page, offset) else {
        return false;
    };
    is_visible(source, snapshot, &version)
}

// The lowest pointer of a page above `after` whose version is visible.
#[tactic(auto, using(page_check::proofs::Slots::lies_no))]
pub fn next_on_page<S: StatusSource>(
    source: &mut S,
    snapshot: &Snapshot,
    page: &Page,
    after: u16,
) -> Option<u16>
    requires { AllLie page.now }
    ensures answer { result ≡ next_on (S.meaning source.old).status (data_of snapshot.now) page.now after }
    ensures kept { S.meaning source.new ≡ S.meaning source.old }
{
    // A range, and not `pointer_numbers`: over that the loop runs by an iterator, and its invariant has no number.
    for number in after.saturating_add(1)..pointer_count(page) + 1 {
        if shows(source, snapshot, page, number) {
            return Some(number);
        }
    }
    None
}

// Behind which pointer of a block the search begins: behind the address in its own block, at the start in those above.
fn start_in(after: Address, block: u32) -> u16
    ensures { result ≡ start_in after block }
{
    if block == after.block {
        after.pointer
    } else {
        0
    }
}

// The lowest address above `after` whose version is visible, over all pages.
pub fn next_address<S: StatusSource>(
    source: &mut S,
    snapshot: &Snapshot,
    pages: &[Page],
    after: Address,
) -> Option<Address>
    requires few { length pages.now ≤ 64 }
    requires lie { PagesLie pages.now }
    ensures answer { result ≡ next_in (S.meaning source.old).status (data_of snapshot.now) pages.now after }
    ensures kept { S.meaning source.new ≡ S.meaning source.old }
{
    // A range, and not `skip` over `enumerate`: behind that the loop runs by the iterator, and its invariant has no block.
    for block in after.block..pages.len() as u32 {
        let page = &pages[block as usize];
        if let Some(pointer) = next_on_page(source, snapshot, page, start_in(after, block)) {
            return Some(Address { block, pointer });
        }
    }
    None
}
