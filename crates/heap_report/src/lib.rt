// A heap image and its pages as text, for people.
//
// Which sizes an image may have, and how many line pointers of each state a page has, are proved; the text itself is
// compared with text that was made from the rules (crates/inspect).

#![tactic(auto)]

mod image;
mod page_report;

pub use image::{MAX_PAGES, SizeFault, pages_in};
pub use page_report::{PageReport, count_in_state};
