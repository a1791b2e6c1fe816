// Transaction numbers, statuses and the interface of a status source.
//
// A transaction number has 32 bits and comes round: 0 stands for none, 1 and 2 are never used, and 3 follows the last
// number. A status source tells, for the numbers of a window from an oldest number up to the next one, whether a
// transaction is open, committed or aborted. Sites keep statuses in ways of their own, so what the rest of the
// archive rests on is the meaning of a source (specs/Meaning.antt) and three laws, and not a data structure.
//
// Proved here: the arithmetic of the numbers with its laws, also across the wrap (`numbers`, `laws`), the two-bit
// codes of the statuses (`statuses`), what forget asks (`lookup`), and that every source keeps the laws (`laws`).
// Left to others: each implementation of `StatusSource` shows that it keeps the contracts of the trait.

#![tactic(auto)]

pub mod laws;
pub mod lookup;
pub mod numbers;
pub mod source;
pub mod statuses;
pub mod window;
