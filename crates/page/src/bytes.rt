// Little-endian numbers in a page. The readers' callers, all of this crate, show that the bytes lie inside; the writers write
// as far as the page goes.
ghost use Rattle.std.specs.Prelude.{◌≡◌, ◌+◌, ◌≤◌, slice_set};
ghost use Rattle.std.specs.List.{between};
ghost use Rattle.page.specs.Bytes.{get16, get32, get64, put_bytes, put16, put32};

use crate::headers::{PAGE_SIZE, Page};

fn read<const N: usize>(page: &Page, at: usize) -> [u8; N]
    requires { at + N ≤ 8192 }
    ensures { result ≡ between at (at + N) page.now }
{
    let mut bytes = [0; N];
    bytes.copy_from_slice(&page[at..at + N]);
    bytes
}

pub(crate) fn read16(page: &Page, at: usize) -> u16
    requires { at + 2 ≤ 8192 }
    ensures { result ≡ get16 page.now at }
{
    u16::from_le_bytes(read(page, at))
}

pub(crate) fn read32(page: &Page, at: usize) -> u32
    requires { at + 4 ≤ 8192 }
    ensures { result ≡ get32 page.now at }
{
    u32::from_le_bytes(read(page, at))
}

pub(crate) fn read64(page: &Page, at: usize) -> u64
    requires { at + 8 ≤ 8192 }
    ensures { result ≡ get64 page.now at }
{
    u64::from_le_bytes(read(page, at))
}

#[tactic(auto, using(std::proofs::lemmas::List::set_past))]
fn write8(page: &mut Page, at: usize, byte: u8)
    ensures { page.new ≡ slice_set page.old at byte }
{
    // A test, and not `get_mut`: behind that the check leaves open what the page holds.
    if at < PAGE_SIZE {
        page[at] = byte;
    }
}

fn write<const N: usize>(page: &mut Page, at: u16, bytes: [u8; N])
    ensures { page.new ≡ put_bytes page.old at bytes.entry }
{
    for (k, byte) in bytes.iter().enumerate() {
        write8(page, at as usize + k, *byte);
    }
}

pub fn write16(page: &mut Page, at: u16, value: u16)
    ensures { page.new ≡ put16 page.old at value }
{
    write(page, at, value.to_le_bytes());
}

pub fn write32(page: &mut Page, at: u16, value: u32)
    ensures { page.new ≡ put32 page.old at value }
{
    write(page, at, value.to_le_bytes());
}
