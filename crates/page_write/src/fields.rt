// The fields of a version's header, its bits one by one, and what they are for new and for removed versions.
ghost use Rattle.std.specs.Prelude.{◌≡◌, []};
ghost use Rattle.page.specs.Slots.{decoded};
ghost use Rattle.page_write.specs.Fields.{version_of, mark_if, encoded, new_version, is_update, is_heap_only_update, leads_to, is_hot, removed_by};

use page::{Address, Mark, VersionHeader};

// What makes a new version.
#[derive(Clone, Copy, PartialEq, Eq, Debug)]
pub enum Origin {
    Insert,
    Update,
    HeapOnlyUpdate,
}

// What removes an old version: the new one that replaces it, by its address, or a delete.
#[derive(Clone, Copy, PartialEq, Eq, Debug)]
pub enum Removal {
    HeapOnlyUpdate(Address),
    Update(Address),
    Delete,
}

// All that a version's header says beside the attribute count and the command, which are the same in every version that
// is written. A remover of 0 is none, as on the page, where the bit beside it need not agree.
#[derive(Clone, Copy, PartialEq, Eq, Debug)]
pub struct VersionFields {
    pub creator: u32,
    pub remover: u32,
    pub creator_committed: bool,
    pub creator_invalid: bool,
    pub remover_committed: bool,
    pub remover_invalid: bool,
    pub updated: bool,
    pub hot_updated: bool,
    pub heap_only: bool,
    pub ctid: Address,
}

fn mark_if(set: bool, mark: Mark) -> u16
    ensures { result ≡ mark_if set mark }
{
    if set { mark.into() } else { 0 }
}

impl Origin {
    fn is_update(self) -> bool
        ensures { result ≡ is_update self }
    {
        self != Origin::Insert
    }

    fn is_heap_only(self) -> bool
        ensures { result ≡ is_heap_only_update self }
    {
        self == Origin::HeapOnlyUpdate
    }
}

impl Removal {
    // The ctid of the old version, which stands at the address `own`.
    fn leads_to(self, own: Address) -> Address
        ensures { result ≡ leads_to own self }
    {
        match self {
            Removal::HeapOnlyUpdate(to) | Removal::Update(to) => to,
            Removal::Delete => own,
        }
    }

    fn is_hot(self) -> bool
        ensures { result ≡ is_hot self }
    {
        matches!(self, Removal::HeapOnlyUpdate(_))
    }
}

impl From<&VersionHeader> for VersionFields {
    ghost from_gives = { λ header fields. version_of fields ≡ decoded header.now [] };

    fn from(header: &VersionHeader) -> VersionFields
        ensures { version_of result ≡ decoded header.now [] }
    {
        VersionFields {
            creator: header.creator,
            remover: header.remover,
            creator_committed: header.has(Mark::CreatorCommitted),
            creator_invalid: header.has(Mark::CreatorInvalid),
            remover_committed: header.has(Mark::RemoverCommitted),
            remover_invalid: header.has(Mark::RemoverInvalid),
            updated: header.has(Mark::Updated),
            hot_updated: header.has(Mark::HotUpdated),
            heap_only: header.has(Mark::HeapOnly),
            ctid: header.ctid,
        }
    }
}

// The header with these fields: one attribute, command 0.
impl From<VersionFields> for VersionHeader {
    ghost from_gives = { λ fields header. header ≡ encoded (version_of fields) };

    fn from(fields: VersionFields) -> VersionHeader
        ensures { result ≡ encoded (version_of fields) }
    {
        VersionHeader {
            creator: fields.creator,
            remover: fields.remover,
            command: 0,
            ctid: fields.ctid,
            infomask2: 1
                + mark_if(fields.hot_updated, Mark::HotUpdated)
                + mark_if(fields.heap_only, Mark::HeapOnly),
            infomask: mark_if(fields.creator_committed, Mark::CreatorCommitted)
                + mark_if(fields.creator_invalid, Mark::CreatorInvalid)
                + mark_if(fields.remover_committed, Mark::RemoverCommitted)
                + mark_if(fields.remover_invalid, Mark::RemoverInvalid)
                + mark_if(fields.updated, Mark::Updated),
            hoff: 24,
            zero: 0,
        }
    }
}

impl VersionFields {
    // A new version at its own address. Its remover is 0, which the bit says too.
    pub fn made(creator: u32, own: Address, origin: Origin) -> VersionFields
        ensures { version_of result ≡ new_version creator own origin [] }
    {
        VersionFields {
            creator,
            remover: 0,
            creator_committed: false,
            creator_invalid: false,
            remover_committed: false,
            remover_invalid: true,
            updated: origin.is_update(),
            hot_updated: false,
            heap_only: origin.is_heap_only(),
            ctid: own,
        }
    }

    // The old version at the address `own`. What its bits said of an earlier remover no longer holds.
    pub fn removed(self, remover: u32, own: Address, removal: Removal) -> VersionFields
        ensures { version_of result ≡ removed_by remover (leads_to own removal) (is_hot removal) (version_of self) }
    {
        VersionFields {
            remover,
            remover_committed: false,
            remover_invalid: false,
            hot_updated: removal.is_hot(),
            ctid: removal.leads_to(own),
            ..self
        }
    }
}
