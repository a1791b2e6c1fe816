// Upkeep of a page over any status source.
//
// Proved here: which versions are dead at a horizon; hint, prune and freeze, their bytes and their counts, by what the source
// says; what they do to the slots of a page, and that a lawful page stays lawful (laws).
// A source, a horizon or cutoff, a page and its block are parameters of their own, and what stays of a source is said at each
// call: a struct that lends source and page would owe more clauses than it saves. What
// is asked of a page is asked of its bytes, since these functions are the interface for the calls.

#![tactic(auto)]

pub mod dead;
pub mod freeze;
pub mod hint;
pub mod laws;
pub mod prune;
