// The marks of freeze: creators that everyone sees for good, and removers that no longer matter, so that the source may
// forget their numbers.
ghost use Rattle.std.specs.Prelude.{◌≡◌, ◌≤◌, []};
ghost use Rattle.page.specs.Headers.{count_of};
ghost use Rattle.page.specs.Slots.{decoded};
ghost use Rattle.page_write.specs.Fields.{version_of};
ghost use Rattle.heap_upkeep.specs.Pruning.{LawfulOn, Freezes};
ghost use Rattle.heap_upkeep.specs.Freezing.{to_freeze, to_clear, with_marks, Marked, Marks};

use crate::prune::prune_at;
use heap_read::fates::{CreatorFate, RemoverFate, creator_fate, remover_fate};
use page::{Page, VersionHeader, pointer_count, version_place};
use page_prune::PruneCount;
use page_write::{VersionFields, rewrite_header};
use xid::numbers::precedes;
use xid::source::StatusSource;

// How many creators were frozen, and how many removers cleared.
#[derive(Clone, Copy, PartialEq, Eq, Debug, Default)]
pub struct MarkCount {
    pub frozen: u16,
    pub cleared: u16,
}

// Whether a version's creator is to be frozen: it is committed, not frozen yet, and precedes the cutoff.
fn is_to_freeze<S: StatusSource>(source: &mut S, cutoff: u32, version: &VersionHeader) -> bool
    ensures answer { result ≡ to_freeze (S.meaning source.old).status cutoff (decoded version.now []) }
    ensures kept { S.meaning source.new ≡ S.meaning source.old }
{
    creator_fate(source, version) == CreatorFate::Committed && precedes(version.creator, cutoff)
}

// Whether a version's remover is to be cleared: there is a number, it removed nothing, and it precedes the cutoff.
fn is_to_clear<S: StatusSource>(source: &mut S, cutoff: u32, version: &VersionHeader) -> bool
    ensures answer { result ≡ to_clear (S.meaning source.old).status cutoff (decoded version.now []) }
    ensures kept { S.meaning source.new ≡ S.meaning source.old }
{
    version.remover != 0
        && remover_fate(source, version) == RemoverFate::None
        && precedes(version.remover, cutoff)
}

fn with_marks(fields: VersionFields, freeze: bool, clear: bool) -> VersionFields
    ensures { version_of result ≡ with_marks freeze clear (version_of fields) }
{
    VersionFields {
        remover: if clear { 0 } else { fields.remover },
        creator_committed: fields.creator_committed || freeze,
        creator_invalid: fields.creator_invalid || freeze,
        remover_invalid: fields.remover_invalid || clear,
        hot_updated: fields.hot_updated && !clear,
        ..fields
    }
}

// Marks the version of one line pointer.
fn mark_one<S: StatusSource>(source: &mut S, cutoff: u32, page: &mut Page, number: u16) -> MarkCount
    ensures few { (result.frozen ≤ 1) × (result.cleared ≤ 1) }
    ensures marks { Marked (S.meaning source.old).status cutoff page.old number page.new result.frozen result.cleared }
    ensures kept { S.meaning source.new ≡ S.meaning source.old }
{
    let Some((offset, version)) = version_place(page, number) else {
        return MarkCount::default();
    };
    let freeze = is_to_freeze(source, cutoff, &version);
    let clear = is_to_clear(source, cutoff, &version);
    let fields = with_marks(VersionFields::from(&version), freeze, clear);
    rewrite_header(page, offset, &fields.into());
    MarkCount {
        frozen: u16::from(freeze),
        cleared: u16::from(clear),
    }
}

// Marks all versions of a page for a cutoff, as freeze does once the page is pruned.
pub fn mark_page<S: StatusSource>(source: &mut S, cutoff: u32, page: &mut Page) -> MarkCount
    requires { count_of page.old ≤ 291 }
    ensures marks { Marks (S.meaning source.old).status cutoff page.old page.new result.frozen result.cleared }
    ensures kept { S.meaning source.new ≡ S.meaning source.old }
{
    let mut count = MarkCount::default();
    // A range, and not `pointer_numbers`: over that the loop runs by an iterator, and its invariant has no number.
    for number in 1..pointer_count(page) + 1 {
        let one = mark_one(source, cutoff, page, number);
        count.frozen += one.frozen;
        count.cleared += one.cleared;
    }
    count
}

// What freeze answers: what its prune did, and its marks.
#[derive(Clone, Copy, PartialEq, Eq, Debug)]
pub struct FreezeCount {
    pub pruned: PruneCount,
    pub marked: MarkCount,
}

// Freezes the lawful page of a block: prunes it at the horizon, and then marks it for the cutoff.
pub fn freeze_at<S: StatusSource>(
    source: &mut S,
    horizon: u32,
    cutoff: u32,
    page: &mut Page,
    block: u32,
) -> FreezeCount
    requires { LawfulOn block page.old }
    ensures told { Freezes (S.meaning source.old).status horizon cutoff block page.old page.new result.pruned.removed result.pruned.made_dead result.marked.frozen result.marked.cleared }
    ensures kept { S.meaning source.new ≡ S.meaning source.old }
{
    let pruned = prune_at(source, horizon, page, block);
    let marked = mark_page(source, cutoff, page);
    FreezeCount { pruned, marked }
}
