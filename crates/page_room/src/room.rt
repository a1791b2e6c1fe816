// Whether a page takes a row, and under which pointer.
ghost use Rattle.std.specs.Prelude.{◌<◌, ◌≡◌, ◌+◌, ◌≤◌, ◌&&◌, if◌then◌else◌, nat_le, nat_lt};
ghost use Rattle.std.specs.List.{find, range_with_len};
ghost use Rattle.page.specs.Headers.{count_of};
ghost use Rattle.page.specs.LinePointers.{pointer_at};
ghost use Rattle.page_room.specs.Room.{up8, is_unused, free_pointer, takes};

use page::{Page, PageHeader, Pointer, pointer_at, pointer_count, pointer_numbers};

fn is_unused(pointer: Pointer) -> bool
    ensures { result ≡ is_unused pointer }
{
    pointer == Pointer::Unused
}

// The lowest unused pointer.
fn first_unused(page: &Page) -> Option<u16>
    ensures { result ≡ find (λ n. is_unused (pointer_at page.now n)) (range_with_len 1 (count_of page.now)) }
{
    pointer_numbers(page).find(|number| is_unused(pointer_at(page, *number)))
}

// The lowest unused pointer, or a new one after the last.
#[tactic(auto, using(crate::proofs::Least::found_least, crate::proofs::Least::least_le))]
pub fn free_pointer(page: &Page) -> u16
    ensures lowest { result ≡ free_pointer page.now }
    ensures next { result ≤ count_of page.now + 1 }
{
    first_unused(page).unwrap_or(pointer_count(page) + 1)
}

// A length with its padding: rounded up to a multiple of 8.
pub fn padded(len: usize) -> usize
    requires { len < 4294967296 }
    ensures { result ≡ up8 len }
{
    len.next_multiple_of(8)
}

// Whether a row has room with its header and padding and, where no pointer is unused, with a new pointer.
fn has_room(room: u16, count: u16, unused: bool, reserve: u16, row_len: usize) -> bool
    ensures { result ≡ (if unused then nat_le (up8 (24 + row_len) + reserve) room else nat_le (up8 (24 + row_len) + 4 + reserve) room && nat_lt count 291) }
{
    if row_len > room as usize {
        return false;
    }
    let size = padded(24 + row_len) + reserve as usize;
    if unused {
        size <= room as usize
    } else {
        size + 4 <= room as usize && count < 291
    }
}

// Whether a page takes a row, such that `reserve` bytes stay free.
#[tactic(auto, using(crate::proofs::Least::some_least))]
pub fn takes_row(reserve: u16, page: &Page, row_len: usize) -> bool
    ensures { result ≡ takes reserve page.now (24 + row_len) }
{
    let header = PageHeader::read(page);
    let unused = first_unused(page).is_some();
    let room = header.upper.saturating_sub(header.lower);
    has_room(room, header.pointer_count(), unused, reserve, row_len)
}
