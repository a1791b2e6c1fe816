// For tests: pages built byte by byte from the page format, without the code under test.

#![tactic(auto)]

use page::{PAGE_SIZE, Page};

pub fn put_byte(page: &mut Page, at: usize, byte: u8) {
    if let Some(place) = page.get_mut(at) {
        *place = byte;
    }
}

fn put<const N: usize>(page: &mut Page, at: usize, bytes: [u8; N]) {
    for (k, byte) in bytes.iter().enumerate() {
        put_byte(page, at.saturating_add(k), *byte);
    }
}

pub fn put16(page: &mut Page, at: usize, value: u16) {
    put(page, at, value.to_le_bytes());
}

pub fn put32(page: &mut Page, at: usize, value: u32) {
    put(page, at, value.to_le_bytes());
}

// An empty page with other ends of its line pointers and its free room.
pub fn bare_page(lower: u16, upper: u16) -> Page {
    let mut page = [0; PAGE_SIZE];
    put16(&mut page, 12, lower);
    put16(&mut page, 14, upper);
    put16(&mut page, 16, 8192);
    put16(&mut page, 18, 0x2004);
    page
}

// The line pointer of a number, by its word.
pub fn put_pointer(page: &mut Page, number: u16, word: u32) {
    put32(page, 20 + 4 * number as usize, word);
}

pub fn normal(offset: u32, len: u32) -> u32 {
    offset
        .saturating_add(0x8000)
        .saturating_add(len.saturating_mul(0x2_0000))
}

pub fn redirect(target: u32) -> u32 {
    target.saturating_add(0x1_0000)
}

// What the header of a version says.
#[derive(Clone, Copy)]
pub struct Head {
    pub creator: u32,
    pub remover: u32,
    pub ctid: (u16, u16),
    pub infomask2: u16,
    pub infomask: u16,
}

// Inserted by transaction 100 and untouched since.
pub const FRESH: Head = Head {
    creator: 100,
    remover: 0,
    ctid: (0, 1),
    infomask2: 1,
    infomask: 0x0800,
};

// Writes the header of a version and the kind of its row, which may be any byte; the body stays zero.
pub fn put_version(page: &mut Page, offset: u16, head: Head, kind: u8) {
    let at = offset as usize;
    put32(page, at, head.creator);
    put32(page, at + 4, head.remover);
    put16(page, at + 14, head.ctid.0);
    put16(page, at + 16, head.ctid.1);
    put16(page, at + 18, head.infomask2);
    put16(page, at + 20, head.infomask);
    put_byte(page, at + 22, 24);
    put_byte(page, at + 24, kind);
}

// A page with one temperature at its end.
pub fn one_row() -> Page {
    let mut page = bare_page(28, 8152);
    put_pointer(&mut page, 1, normal(8152, 33));
    put_version(&mut page, 8152, FRESH, 1);
    page
}

// A chain of two: pointer 1 was replaced by the heap-only version of pointer 2, by transaction 101.
pub fn hot_pair(lower: u16) -> Page {
    let mut page = bare_page(lower, 8112);
    put_pointer(&mut page, 1, normal(8152, 33));
    put_version(
        &mut page,
        8152,
        Head {
            remover: 101,
            ctid: (0, 2),
            infomask2: 0x4001,
            infomask: 0,
            ..FRESH
        },
        1,
    );
    put_pointer(&mut page, 2, normal(8112, 33));
    put_version(
        &mut page,
        8112,
        Head {
            creator: 101,
            ctid: (0, 2),
            infomask2: 0x8001,
            infomask: 0x2800,
            ..FRESH
        },
        1,
    );
    page
}
