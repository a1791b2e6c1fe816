// Which block takes a row.
ghost use Rattle.std.specs.Prelude.{◌≡◌, ◌+◌, ◌≤◌, length};
ghost use Rattle.std.specs.List.{position};
ghost use Rattle.page_room.specs.Room.{takes, first_block_taking};

use crate::room::takes_row;
use page::Page;

fn place_taking(pages: &[Page], reserve: u16, row_len: usize) -> Option<usize>
    ensures { result ≡ position (λ p. takes reserve p (24 + row_len)) pages.now }
{
    let mut block = 0;
    // By a rule of the project this loop yields its block by `break`.
    loop {
        if block == pages.len() {
            break None;
        }
        if takes_row(reserve, &pages[block], row_len) {
            break Some(block);
        }
        block += 1;
    }
}

// The lowest block whose page takes a row, such that `reserve` bytes stay free. There are no more pages than block numbers.
pub fn first_block_taking(pages: &[Page], reserve: u16, row_len: usize) -> Option<u32>
    requires { length pages.now ≤ 4294967296 }
    ensures { result ≡ first_block_taking reserve pages.now (24 + row_len) }
{
    place_taking(pages, reserve, row_len).map(|block| block as u32)
}
