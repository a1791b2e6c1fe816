// Operations on a page of block 0 that is checked first: `None` where it is not lawful. Each has the test itself, since a function
// for it would need a contract that is longer than the test.
use heap_read::links::first_visible;
use heap_upkeep::freeze::{FreezeCount, freeze_at};
use heap_upkeep::prune::prune_at;
use page::{Page, standard_kinds};
use page_check::is_lawful;
use page_prune::PruneCount;
use page_room::takes_row;
use page_write::{Origin, put_version};
use snapshot::snapshots::Snapshot;
use xid::source::StatusSource;

pub fn prune<S: StatusSource>(source: &mut S, horizon: u32, page: &mut Page) -> Option<PruneCount> {
    if !is_lawful(standard_kinds(), page, 0) {
        return None;
    }
    Some(prune_at(source, horizon, page, 0))
}

pub fn freeze<S: StatusSource>(
    source: &mut S,
    horizon: u32,
    cutoff: u32,
    page: &mut Page,
) -> Option<FreezeCount> {
    if !is_lawful(standard_kinds(), page, 0) {
        return None;
    }
    Some(freeze_at(source, horizon, cutoff, page, 0))
}

// The pointer of the first visible version of a root; `None` also where there is none.
pub fn fetch<S: StatusSource>(
    source: &mut S,
    snapshot: &Snapshot,
    page: &Page,
    root: u16,
) -> Option<u16> {
    if !is_lawful(standard_kinds(), page, 0) {
        return None;
    }
    first_visible(source, snapshot, page, 0, root)
}

// The pointer of a new version; `None` also where the page takes none.
pub fn place(page: &mut Page, creator: u32, origin: Origin, row: &[u8]) -> Option<u16> {
    if !is_lawful(standard_kinds(), page, 0) || !takes_row(0, page, row.len()) {
        return None;
    }
    Some(put_version(page, 0, creator, origin, row))
}
