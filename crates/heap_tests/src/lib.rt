// Worked examples of reading, writing and upkeep, written by hand from the rules (docs/reading.md, docs/writing.md,
// docs/upkeep.md).
//
// Proved here: the calls of the tests make sure by the page check that a page is lawful before they work on it.

#![tactic(auto)]

pub mod lawful;
#[cfg(test)]
mod tests;
