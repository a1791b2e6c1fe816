// Room for a row: whether a page takes it, under which pointer, and the lowest block whose page does.
//
// All answers are by equality with the definitions of specs/Room.antt, for pages of any content and any reserve of bytes
// that must stay free. Nothing is written here: the crate `page_write` puts the row.
// A reserve and the length of a row are two parameters, as a caller has them from two places.

#![tactic(auto)]

mod blocks;
mod room;

pub use blocks::first_block_taking;
pub use room::{free_pointer, padded, takes_row};
