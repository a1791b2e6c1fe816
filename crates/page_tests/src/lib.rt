// Worked examples of the page layer, written by hand from the page format (docs/page-format.md).
//
// A crate of its own, since a crate with tests is proved twice.

#![tactic(auto)]

#[cfg(test)]
mod tests;
