// Versions of rows: a header of 24 bytes, and then the row.
ghost use Rattle.std.specs.Prelude.{◌≡◌};
ghost use Rattle.std.specs.Option.{option_map};
ghost use Rattle.page.specs.LinePointers.{pointer_at};
ghost use Rattle.page.specs.Slots.{header_in, header_no, place_in};
ghost use Rattle.page.specs.Versions.{weight, word_of, has_mark, version_at, row_at};

use crate::bytes::{read16, read32};
use crate::headers::{PAGE_SIZE, Page, pointer_numbers};
use crate::line_pointers::{Pointer, pointer_at};
use std::fmt;

// Where a version stands: a block of the heap, and a line pointer of its page.
#[derive(Clone, Copy, PartialEq, Eq, Debug)]
pub struct Address {
    pub block: u32,
    pub pointer: u16,
}

// The header of a version, as its bytes stand. The creator and the remover are transaction numbers (PostgreSQL's xmin
// and xmax), and `ctid` is the version that replaced this one, or this one itself.
#[derive(Clone, Copy, PartialEq, Eq, Debug)]
pub struct VersionHeader {
    pub creator: u32,
    pub remover: u32,
    pub command: u32,
    pub ctid: Address,
    pub infomask2: u16,
    pub infomask: u16,
    pub hoff: u8,
    pub zero: u8,
}

// The named bits of the two infomask words. A creator with both of its bits is frozen.
#[derive(Clone, Copy, PartialEq, Eq, Debug)]
pub enum Mark {
    CreatorCommitted = 0x0100,
    CreatorInvalid = 0x0200,
    RemoverCommitted = 0x0400,
    RemoverInvalid = 0x0800,
    Updated = 0x2000,
    HotUpdated = 0x4000,
    HeapOnly = 0x8000,
}

impl From<Mark> for u16 {
    ghost from_gives = { λ mark bits. bits ≡ weight mark };

    fn from(mark: Mark) -> u16 {
        mark as u16
    }
}

impl fmt::Display for Mark {
    fn fmt<W: fmt::Write>(&self, f: &mut fmt::Formatter<W>) -> fmt::Result {
        f.write_str(match self {
            Mark::CreatorCommitted => "creator-committed",
            Mark::CreatorInvalid => "creator-invalid",
            Mark::RemoverCommitted => "remover-committed",
            Mark::RemoverInvalid => "remover-invalid",
            Mark::Updated => "updated",
            Mark::HotUpdated => "hot-updated",
            Mark::HeapOnly => "heap-only",
        })
    }
}

impl VersionHeader {
    // The word that has the mark: those of chains stand in infomask2.
    fn word(&self, mark: Mark) -> u16
        ensures { result ≡ word_of self.now mark }
    {
        match mark {
            Mark::HotUpdated | Mark::HeapOnly => self.infomask2,
            _ => self.infomask,
        }
    }

    pub fn has(&self, mark: Mark) -> bool
        ensures { result ≡ has_mark self.now mark }
    {
        self.word(mark) / u16::from(mark) % 2 == 1
    }
}

// The header of the version at an offset, where the page has 24 bytes from there.
pub fn version_at(page: &Page, offset: u16) -> Option<VersionHeader>
    ensures { result ≡ version_at page.now offset }
{
    let at = offset as usize;
    if at + 24 > PAGE_SIZE {
        return None;
    }
    let block = read16(page, at + 12) as u32 * 0x1_0000 + read16(page, at + 14) as u32;
    Some(VersionHeader {
        creator: read32(page, at),
        remover: read32(page, at + 4),
        command: read32(page, at + 8),
        ctid: Address {
            block,
            pointer: read16(page, at + 16),
        },
        infomask2: read16(page, at + 18),
        infomask: read16(page, at + 20),
        hoff: page[at + 22],
        zero: page[at + 23],
    })
}

// The row of the version at an offset, with its kind first, where the page has the whole version.
pub fn row_at(page: &Page, offset: u16, len: u16) -> Option<&[u8]>
    ensures { option_map (λ x. x.now) result ≡ row_at page.now offset len }
{
    let start = offset as usize + 24;
    let end = offset as usize + len as usize;
    if end <= start {
        return None;
    }
    page.get(start..end)
}

// The header of the version of a pointer, where it has one inside the page.
pub fn version_in(page: &Page, pointer: Pointer) -> Option<VersionHeader>
    ensures { result ≡ header_in page.now pointer }
{
    match pointer {
        Pointer::Normal { offset, len: _ } => version_at(page, offset),
        _ => None,
    }
}

// The header of the version of a line pointer, where there is one.
pub fn version_of(page: &Page, number: u16) -> Option<VersionHeader>
    ensures { result ≡ header_no page.now number }
{
    if !pointer_numbers(page).contains(&number) {
        return None;
    }
    version_in(page, pointer_at(page, number))
}

// Where the version of a line pointer stands, and its header, where it has one inside the page.
pub fn version_place(page: &Page, number: u16) -> Option<(u16, VersionHeader)>
    ensures { result ≡ place_in page.now (pointer_at page.now number) }
{
    let Pointer::Normal { offset, len: _ } = pointer_at(page, number) else {
        return None;
    };
    let version = version_at(page, offset)?;
    Some((offset, version))
}
