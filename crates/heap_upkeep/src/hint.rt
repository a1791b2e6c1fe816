// Hints: bits that say how the creator and the remover of a version ended, so that the source need not be asked again.
ghost use Rattle.std.specs.Prelude.{◌≡◌, ◌≤◌, ◌||◌, []};
ghost use Rattle.page.specs.Headers.{count_of};
ghost use Rattle.page.specs.LinePointers.{pointer_at};
ghost use Rattle.page.specs.Slots.{decoded};
ghost use Rattle.page_write.specs.Changing.{change_version};
ghost use Rattle.page_write.specs.Fields.{version_of};
ghost use Rattle.heap_upkeep.specs.Along.{one, per_version};
ghost use Rattle.heap_upkeep.specs.Hints.{is_committed, is_aborted, creator_news, remover_news, with_news, hinted, bits_set, hinted_page, hint_count};

use page::{Mark, Page, VersionHeader, pointer_count, version_place};
use page_write::{VersionFields, rewrite_header};
use xid::source::StatusSource;
use xid::statuses::Status;

// What the source says of a creator that no bit speaks of.
fn creator_news<S: StatusSource>(source: &mut S, version: &VersionHeader) -> Status
    ensures answer { result ≡ creator_news (S.meaning source.old).status (decoded version.now []) }
    ensures kept { S.meaning source.new ≡ S.meaning source.old }
{
    if version.has(Mark::CreatorCommitted) || version.has(Mark::CreatorInvalid) {
        return Status::Unknown;
    }
    source.status(version.creator)
}

// What the source says of a remover that no bit speaks of. It differs from the one above in the bits and the field it reads.
fn remover_news<S: StatusSource>(source: &mut S, version: &VersionHeader) -> Status
    ensures answer { result ≡ remover_news (S.meaning source.old).status (decoded version.now []) }
    ensures kept { S.meaning source.new ≡ S.meaning source.old }
{
    if version.remover == 0
        || version.has(Mark::RemoverCommitted)
        || version.has(Mark::RemoverInvalid)
    {
        return Status::Unknown;
    }
    source.status(version.remover)
}

fn with_news(fields: VersionFields, creator: Status, remover: Status) -> VersionFields
    ensures { version_of result ≡ with_news creator remover (version_of fields) }
{
    VersionFields {
        creator_committed: fields.creator_committed || creator == Status::Committed,
        creator_invalid: fields.creator_invalid || creator == Status::Aborted,
        remover_committed: fields.remover_committed || remover == Status::Committed,
        remover_invalid: fields.remover_invalid || remover == Status::Aborted,
        ..fields
    }
}

// How many bits news of one transaction sets.
fn bits_of(news: Status) -> u16
    ensures value { result ≡ one (is_committed news || is_aborted news) }
    ensures small { result ≤ 1 }
{
    u16::from(matches!(news, Status::Committed | Status::Aborted))
}

// Hints the version of one line pointer, and answers how many bits that set.
fn hint_one<S: StatusSource>(source: &mut S, page: &mut Page, number: u16) -> u16
    ensures few { result ≤ 2 }
    ensures page { page.new ≡ change_version (hinted (S.meaning source.old).status) page.old number }
    ensures bits { result ≡ per_version (bits_set (S.meaning source.old).status) page.old (pointer_at page.old number) }
    ensures kept { S.meaning source.new ≡ S.meaning source.old }
{
    let Some((offset, version)) = version_place(page, number) else {
        return 0;
    };
    let creator = creator_news(source, &version);
    let remover = remover_news(source, &version);
    let fields = with_news(VersionFields::from(&version), creator, remover);
    rewrite_header(page, offset, &fields.into());
    bits_of(creator) + bits_of(remover)
}

// Hints all versions of a page, and answers how many bits that set.
pub fn hint_page<S: StatusSource>(source: &mut S, page: &mut Page) -> u16
    requires { count_of page.old ≤ 291 }
    ensures page { page.new ≡ hinted_page (S.meaning source.old).status page.old }
    ensures bits { result ≡ hint_count (S.meaning source.old).status page.old }
    ensures kept { S.meaning source.new ≡ S.meaning source.old }
{
    let mut bits = 0;
    // A range, and not `pointer_numbers`: over that the loop runs by an iterator, and its invariant has no number.
    for number in 1..pointer_count(page) + 1 {
        bits += hint_one(source, page, number);
    }
    bits
}
