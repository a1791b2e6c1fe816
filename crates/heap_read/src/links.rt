// How versions hang together: links, roots and chains.
ghost use Rattle.std.specs.Prelude.{◌≡◌, true, unwrap_or, []};
ghost use Rattle.page.specs.LinePointers.{pointer_at};
ghost use Rattle.page.specs.Slots.{decoded, slot_of, slot_no};
ghost use Rattle.page_check.specs.Marking.{LiesIn, AllLie};
ghost use Rattle.snapshot.specs.Snapshots.{data_of};
ghost use Rattle.heap_read.specs.Links.{names_on, links_on, link_in, LeadsAlong, is_root, fetch_on};

use crate::fates::{CreatorFate, RemoverFate, creator_fate, remover_fate};
use crate::next::shows;
use page::{Mark, Page, Pointer, VersionHeader, pointer_at, pointer_numbers, version_at};
use page_check::is_made_by;
use snapshot::snapshots::Snapshot;
use xid::source::StatusSource;

// A page and its block are two parameters: as a struct they would be longer in each clause than by themselves.

// Whether a version of a block links on to the version that its ctid names. Whatever the source says, only where it names one.
#[tactic(auto, using(page_check::proofs::Slots::made_by_no))]
fn links_on<S: StatusSource>(
    source: &mut S,
    page: &Page,
    block: u32,
    version: &VersionHeader,
) -> bool
    requires { AllLie page.now }
    ensures names { result ≡ true → names_on block (slot_no page.now) (decoded version.now []) ≡ true }
    ensures answer { result ≡ links_on (S.meaning source.old).status block (slot_no page.now) (decoded version.now []) }
    ensures kept { S.meaning source.new ≡ S.meaning source.old }
{
    version.has(Mark::HotUpdated)
        && version.ctid.block == block
        && is_made_by(page, version.ctid.pointer, version.remover)
        && creator_fate(source, version) != CreatorFate::Aborted
        && remover_fate(source, version) != RemoverFate::None
}

// The pointer that a line pointer of a block links to. Whatever the source says, it leads along the names of the page.
#[tactic(auto, using(crate::proofs::Along::named_along))]
pub fn link_of<S: StatusSource>(source: &mut S, page: &Page, block: u32, number: u16) -> Option<u16>
    requires lie { AllLie page.now }
    requires here { LiesIn (pointer_at page.now number) }
    ensures along { LeadsAlong block (slot_no page.now) (slot_of page.now (pointer_at page.now number)) (unwrap_or result 0) }
    ensures answer { result ≡ link_in (S.meaning source.old).status block (slot_no page.now) (slot_of page.now (pointer_at page.now number)) }
    ensures kept { S.meaning source.new ≡ S.meaning source.old }
{
    match pointer_at(page, number) {
        Pointer::Unused | Pointer::Dead => None,
        Pointer::Redirect(target) => Some(target),
        Pointer::Normal { offset, len: _ } => {
            let version = version_at(page, offset)?;
            links_on(source, page, block, &version).then_some(version.ctid.pointer)
        }
    }
}

// Whether a line pointer is a root: a redirect, a dead pointer, or a version that is not heap-only. A match, as one of the four
// asks further.
pub fn is_root(page: &Page, number: u16) -> bool
    requires { AllLie page.now }
    ensures { result ≡ is_root (slot_no page.now number) }
{
    if !pointer_numbers(page).contains(&number) {
        return false;
    }
    match pointer_at(page, number) {
        Pointer::Unused => false,
        Pointer::Dead | Pointer::Redirect(_) => true,
        Pointer::Normal { offset, len: _ } => {
            version_at(page, offset).is_some_and(|version| !version.has(Mark::HeapOnly))
        }
    }
}

// The first visible version that is reached from a root of a page. The walk is bounded by the number of pointers: a chain
// visits no version twice, and where it starts at no root it may run in a circle.
#[tactic(auto, using(crate::proofs::Shown::number_in, crate::proofs::Shown::number_out, crate::proofs::Walks::walk_end, page_check::proofs::Slots::lies_no))]
pub fn first_visible<S: StatusSource>(
    source: &mut S,
    snapshot: &Snapshot,
    page: &Page,
    block: u32,
    root: u16,
) -> Option<u16>
    requires { AllLie page.now }
    ensures answer { result ≡ fetch_on (S.meaning source.old).status (data_of snapshot.now) block page.now root }
    ensures kept { S.meaning source.new ≡ S.meaning source.old }
{
    let numbers = pointer_numbers(page);
    let mut at = root;
    for _ in 0..numbers.end {
        if !numbers.contains(&at) {
            return None;
        }
        if shows(source, snapshot, page, at) {
            return Some(at);
        }
        at = link_of(source, page, block, at)?;
    }
    None
}
