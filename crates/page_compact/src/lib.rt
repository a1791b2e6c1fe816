// Compaction of a heap page: its versions laid anew, in the order of their pointers, from the end of the page down.
//
// `compact_page` leaves the bytes that the definition of specs/Compaction.antt says, for every lawful page, through a copy of
// the page and with no allocation. The law on `compaction_keeps` says what that comes to: no decoded slot changes, the page
// stays lawful, upper is told by the slots alone, and the room and all padding are zero. When a page is to be compacted is
// the matter of pruning, in the crate `page_prune`.

#![tactic(auto)]

mod compaction;

ghost use Rattle.page_compact.specs.Laws.{CompactionKeeps};

pub use compaction::compact_page;

// Compaction changes no slot and keeps every lawful page lawful; the free room and the padding are zero afterwards.
pub fn compaction_keeps()
    ensures { CompactionKeeps }
{}
