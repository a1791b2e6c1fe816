// The layout of a heap page: the table of kinds, the page header, line pointers and versions.
//
// Every function here takes a page of any content: none that is public has a `requires`, none goes outside the page, and each
// contract says by equality with a definition of specs/ what is read or written. Nothing here judges a page: whether it is lawful is the
// matter of the crate `page_check`.

#![tactic(auto)]

mod bytes;
mod headers;
mod kinds;
mod line_pointers;
mod versions;

pub use bytes::{write16, write32};
pub use headers::{PAGE_SIZE, Page, PageHeader, pointer_count, pointer_numbers};
pub use kinds::{Kind, RowKind, UnknownKind, body_len, row_fits, standard_kinds};
pub use line_pointers::{LinePointer, Pointer, State, line_pointer_at, pointer_at};
pub use versions::{
    Address, Mark, VersionHeader, row_at, version_at, version_in, version_of, version_place,
};
