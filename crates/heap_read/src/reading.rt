// Readings of a heap, which hand out rows as parts of its pages.
ghost use Rattle.std.specs.Prelude.{◌≡◌, ◌≤◌, length};
ghost use Rattle.page.specs.LinePointers.{pointer_at};
ghost use Rattle.page.specs.Slots.{slot_of};
ghost use Rattle.page_check.specs.Marking.{LiesIn, PagesLie};
ghost use Rattle.snapshot.specs.Snapshots.{data_of};
ghost use Rattle.heap_read.specs.Links.{fetch_in};
ghost use Rattle.heap_read.specs.Reading.{handed_out, handed, found_in, found_at, next_in};

use crate::found::Found;
use crate::links::first_visible;
use crate::next::next_address;
use page::{Address, Page, Pointer, pointer_at, pointer_numbers, row_at};
use snapshot::snapshots::Snapshot;
use xid::source::StatusSource;

// The version of a line pointer of a page, at the address that it has in the heap.
fn found_on<'a>(page: &'a Page, address: Address) -> Option<Found<'a>>
    requires { LiesIn (pointer_at page.now address.pointer) }
    ensures { handed_out result ≡ found_in address (slot_of page.now (pointer_at page.now address.pointer)) }
{
    let Pointer::Normal { offset, len } = pointer_at(page, address.pointer) else {
        return None;
    };
    let row = row_at(page, offset, len)?;
    Some(Found { address, row })
}

// The version at an address of a heap.
pub fn found_at<'a>(pages: &'a [Page], address: Address) -> Option<Found<'a>>
    requires { PagesLie pages.now }
    ensures { handed_out result ≡ found_at pages.now address }
{
    let page = pages.get(address.block as usize)?;
    if !pointer_numbers(page).contains(&address.pointer) {
        return None;
    }
    found_on(page, address)
}

// The visible version with the lowest address above `after`.
pub fn next_visible<'a, S: StatusSource>(
    source: &mut S,
    snapshot: &Snapshot,
    pages: &'a [Page],
    after: Address,
) -> Option<Found<'a>>
    requires few { length pages.now ≤ 64 }
    requires lie { PagesLie pages.now }
    ensures answer { handed_out result ≡ handed pages.now (next_in (S.meaning source.old).status (data_of snapshot.now) pages.now after) }
    ensures kept { S.meaning source.new ≡ S.meaning source.old }
{
    let address = next_address(source, snapshot, pages, after)?;
    found_at(pages, address)
}

// The first visible version of the chain of a root.
pub fn fetch_visible<'a, S: StatusSource>(
    source: &mut S,
    snapshot: &Snapshot,
    pages: &'a [Page],
    root: Address,
) -> Option<Found<'a>>
    requires lie { PagesLie pages.now }
    ensures answer { handed_out result ≡ handed pages.now (fetch_in (S.meaning source.old).status (data_of snapshot.now) pages.now root) }
    ensures kept { S.meaning source.new ≡ S.meaning source.old }
{
    let page = pages.get(root.block as usize)?;
    let pointer = first_visible(source, snapshot, page, root.block, root.pointer)?;
    found_at(pages, Address { pointer, ..root })
}
