// What upkeep means for the slots of a page, and that a lawful page stays lawful: specs/Laws.antt has the statements.
ghost use Rattle.heap_upkeep.specs.Laws.{HintLaw, MarksLaw, FreezeLaw};

pub fn hint_law()
    ensures { HintLaw }
{}

pub fn marks_law()
    ensures { MarksLaw }
{}

pub fn freeze_law()
    ensures { FreezeLaw }
{}
