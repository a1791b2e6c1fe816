// What is written to a page: the bytes of an empty one, after a version was put on it, and after the header of an old version
// was rewritten by an update or a delete.
//
// Contracts say the answers and the bytes at exit by equality with definitions of specs/. Whether a page has room is the
// matter of the crate `page_room`. What writing means for the slots of a page, and that a lawful page stays lawful, is proved
// in the crate `page_write_laws`. Who may write and in which order a call asks its questions is left to the calls; hint and
// freeze rewrite headers by `VersionFields` and `rewrite_header` too.

#![tactic(auto)]

mod change;
mod empty;
mod fields;
mod place;

pub use change::{mark_removed, rewrite_header};
pub use empty::empty_page;
pub use fields::{Origin, Removal, VersionFields};
pub use place::put_version;
