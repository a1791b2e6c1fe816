// What writing means for the slots of a page: which slot changes and that no other does, and that a lawful page stays lawful.
//
// Each function carries one law, over any table of kinds and every block; specs/Laws.antt and specs/Edges.antt have the
// statements. They speak of the definitions that the contracts of the crate `page_write` end in. Hint and freeze use the
// laws of changing one version or all; what they write is left to them.

#![tactic(auto)]

ghost use Rattle.page_write_laws.specs.Edges.{EmptyLaw, EdgeLaw, Edges};
ghost use Rattle.page_write_laws.specs.Laws.{FreeLaw, PutLaw, ChangeLaw, ChangeAllLaw, SameLaw, MarkLaw};

// An empty page is lawful, and has no slots.
pub fn empty_law()
    ensures { EmptyLaw }
{}

// How many rows an empty page takes, for each kind.
pub fn edge_law()
    ensures law { EdgeLaw }
    ensures kinds { Edges }
{}

// The pointer that a new version takes is that of the lowest unused slot.
pub fn free_law()
    ensures { FreeLaw }
{}

// A version is put on a page.
pub fn put_law()
    ensures { PutLaw }
{}

// One version is replaced, as hint and freeze do it too.
pub fn change_law()
    ensures { ChangeLaw }
{}

// All versions of a page are replaced, such that none names more than before.
pub fn change_all_law()
    ensures { ChangeAllLaw }
{}

// What stands on a lawful page can be written over itself.
pub fn same_law()
    ensures { SameLaw }
{}

// The old version of an update or a delete is marked.
pub fn mark_law()
    ensures { MarkLaw }
{}
