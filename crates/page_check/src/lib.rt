// Which pages are lawful, and which rule a page breaks first.
//
// For every content of a page, every block number and every table of kinds: `is_lawful` answers exactly the definition of
// a lawful page, and `first_broken` names the first rule that fails and where, or none exactly where the page is lawful.
// The time is linear in the page's size. The layout itself is the matter of the crate `page`.

#![tactic(auto)]

mod check;
mod naming;
mod overlap;
mod own;
mod rules;
mod sound;

pub use check::{first_broken, is_lawful};
pub use naming::{is_heap_only, is_made_by};
pub use rules::{Broken, HeaderRule, PageRule, PointerRule, VersionRule};
