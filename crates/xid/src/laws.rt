// Theorems about the definitions that the contracts use. Each function's contract is its theorem.
ghost use Rattle.xid.specs.Meaning.{Lawful};
ghost use Rattle.xid.specs.Laws.{CodesReadBack, SuccessorIsNext, OrderInWindow, NotBothBefore, LineIsOrdered, ForgetRule};

use crate::source::StatusSource;

// Each status is read back from its code.
pub fn codes_read_back()
    ensures { CodesReadBack }
{}

// The order of the numbers, inside a window and along all of them, round and round.
pub fn numbers_are_ordered()
    ensures successor { SuccessorIsNext }
    ensures window { OrderInWindow }
    ensures once { NotBothBefore }
    ensures line { LineIsOrdered }
{}

// What forget accepts is what the rule says in words.
pub fn forget_follows_rule()
    ensures { ForgetRule }
{}

// The three laws: the next number is under 2^31 from the oldest, a source with an empty window is not full, and one
// whose next number is 2,000,000,000 or more from the oldest is. Every source keeps them.
pub fn laws_are_kept<S: StatusSource>(source: &S)
    ensures { Lawful (S.meaning source.now) }
{}
