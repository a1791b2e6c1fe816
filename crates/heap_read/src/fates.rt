// What became of the transactions that made and removed a version, and what a snapshot sees.
ghost use Rattle.std.specs.Prelude.{◌≡◌, []};
ghost use Rattle.page.specs.Slots.{decoded};
ghost use Rattle.snapshot.specs.Snapshots.{data_of};
ghost use Rattle.heap_read.specs.Fates.{creator_by_status, remover_by_status, creator_fate, remover_fate, is_seen, is_gone, visible};

use page::{Mark, VersionHeader};
use snapshot::snapshots::Snapshot;
use xid::source::StatusSource;
use xid::statuses::Status;

// A frozen creator counts as committed for everyone, whatever its number.
#[derive(Clone, Copy, PartialEq, Eq, Debug)]
pub enum CreatorFate {
    Frozen,
    Committed,
    Aborted,
    Open,
    Unknown,
}

// A remover that aborted is none.
#[derive(Clone, Copy, PartialEq, Eq, Debug)]
pub enum RemoverFate {
    None,
    Pending,
    Committed,
    Unknown,
}

impl From<Status> for CreatorFate {
    ghost from_gives = { λ status fate. fate ≡ creator_by_status status };

    fn from(status: Status) -> CreatorFate {
        match status {
            Status::Open => CreatorFate::Open,
            Status::Committed => CreatorFate::Committed,
            Status::Aborted => CreatorFate::Aborted,
            Status::Unknown => CreatorFate::Unknown,
        }
    }
}

impl From<Status> for RemoverFate {
    ghost from_gives = { λ status fate. fate ≡ remover_by_status status };

    fn from(status: Status) -> RemoverFate {
        match status {
            Status::Open => RemoverFate::Pending,
            Status::Committed => RemoverFate::Committed,
            Status::Aborted => RemoverFate::None,
            Status::Unknown => RemoverFate::Unknown,
        }
    }
}

// The fate of a version's creator: its bits decide, and where none is set, the source.
pub fn creator_fate<S: StatusSource>(source: &mut S, version: &VersionHeader) -> CreatorFate
    ensures answer { result ≡ creator_fate (S.meaning source.old).status (decoded version.now []) }
    ensures kept { S.meaning source.new ≡ S.meaning source.old }
{
    match (
        version.has(Mark::CreatorCommitted),
        version.has(Mark::CreatorInvalid),
    ) {
        (true, true) => CreatorFate::Frozen,
        (true, false) => CreatorFate::Committed,
        (false, true) => CreatorFate::Aborted,
        (false, false) => CreatorFate::from(source.status(version.creator)),
    }
}

// The fate of a version's remover: none where there is no number or the bits say so; else as for a creator.
pub fn remover_fate<S: StatusSource>(source: &mut S, version: &VersionHeader) -> RemoverFate
    ensures answer { result ≡ remover_fate (S.meaning source.old).status (decoded version.now []) }
    ensures kept { S.meaning source.new ≡ S.meaning source.old }
{
    if version.remover == 0 || version.has(Mark::RemoverInvalid) {
        return RemoverFate::None;
    }
    if version.has(Mark::RemoverCommitted) {
        return RemoverFate::Committed;
    }
    RemoverFate::from(source.status(version.remover))
}

// Whether a snapshot sees what a creator of this fate made. A match, which names each fate, and no comparison with two.
fn is_seen(fate: CreatorFate, snapshot: &Snapshot, creator: u32) -> bool
    ensures { result ≡ is_seen fate (data_of snapshot.now) creator }
{
    match fate {
        CreatorFate::Frozen => true,
        CreatorFate::Committed => !snapshot.is_running(creator),
        CreatorFate::Aborted | CreatorFate::Open | CreatorFate::Unknown => false,
    }
}

// Whether what a remover of this fate removed is gone for a snapshot.
fn is_gone(fate: RemoverFate, snapshot: &Snapshot, remover: u32) -> bool
    ensures { result ≡ is_gone fate (data_of snapshot.now) remover }
{
    fate == RemoverFate::Committed && !snapshot.is_running(remover)
}

// Whether a version is visible to a snapshot. A hint bit says that a transaction ended, not when: whether it had ended when
// the snapshot was taken, only the snapshot says.
pub fn is_visible<S: StatusSource>(
    source: &mut S,
    snapshot: &Snapshot,
    version: &VersionHeader,
) -> bool
    ensures answer { result ≡ visible (S.meaning source.old).status (data_of snapshot.now) (decoded version.now []) }
    ensures kept { S.meaning source.new ≡ S.meaning source.old }
{
    is_seen(creator_fate(source, version), snapshot, version.creator)
        && !is_gone(remover_fate(source, version), snapshot, version.remover)
}
