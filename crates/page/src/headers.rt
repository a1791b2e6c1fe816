// A page and its header.
ghost use Rattle.std.specs.Prelude.{◌≡◌, ◌+◌};
ghost use Rattle.page.specs.Headers.{header_of, pointer_count, count_of};

use crate::bytes::{read16, read32, read64};
use std::ops::Range;

pub const PAGE_SIZE: usize = 8192;

pub type Page = [u8; PAGE_SIZE];

// The 24 bytes that a page begins with. `lower` is where the line pointers end, `upper` where the versions begin.
#[derive(Clone, Copy, PartialEq, Eq, Debug)]
pub struct PageHeader {
    pub lsn: u64,
    pub checksum: u16,
    pub flags: u16,
    pub lower: u16,
    pub upper: u16,
    pub special: u16,
    pub version: u16,
    pub prune_xid: u32,
}

impl PageHeader {
    pub fn read(page: &Page) -> PageHeader
        ensures { result ≡ header_of page.now }
    {
        PageHeader {
            lsn: read64(page, 0),
            checksum: read16(page, 8),
            flags: read16(page, 10),
            lower: read16(page, 12),
            upper: read16(page, 14),
            special: read16(page, 16),
            version: read16(page, 18),
            prune_xid: read32(page, 20),
        }
    }

    // How many line pointers stand between the header and `lower`, or the page's end where `lower` lies past it.
    pub fn pointer_count(&self) -> u16
        ensures { result ≡ pointer_count self.now }
    {
        self.lower.min(8192).saturating_sub(24) / 4
    }
}

// How many line pointers stand on a page.
pub fn pointer_count(page: &Page) -> u16
    ensures { result ≡ count_of page.now }
{
    PageHeader::read(page).pointer_count()
}

// The numbers of the line pointers of a page, which count from 1.
pub fn pointer_numbers(page: &Page) -> Range<u16>
    ensures { result ≡ record { start = 1; end = count_of page.now + 1 } }
{
    1..pointer_count(page) + 1
}
