// Puts a version on a page: just below `upper`, under the lowest unused pointer or a new one.
ghost use Rattle.std.specs.Prelude.{◌≡◌, true, cond, [], ◌+◌, ◌-◌, ◌<◌, ◌≤◌, leb, length};
ghost use Rattle.page.specs.Headers.{header_of, pointer_count};
ghost use Rattle.page_room.specs.Room.{up8, free_pointer, takes};
ghost use Rattle.page_write.specs.Fields.{encoded, address_of, new_version};
ghost use Rattle.page_write.specs.Placing.{write_header, write_row, write_version, put_at, put_version, placed_version};

use crate::change::rewrite_header;
use crate::fields::{Origin, VersionFields};
use page::{Address, Page, PageHeader, Pointer, VersionHeader, write16, write32};
use page_room::{free_pointer, padded};

// Field by field: the offsets are what there is to say.
fn write_header(page: &mut Page, offset: u16, header: &VersionHeader)
    requires { offset + 24 ≤ 8192 }
    ensures { page.new ≡ write_header page.old offset header.now }
{
    write32(page, offset, header.creator);
    write32(page, offset + 8, header.command);
    rewrite_header(page, offset, header);
    page[offset as usize + 22] = header.hoff;
    page[offset as usize + 23] = header.zero;
}

// Writes a row, and zeros after it.
fn write_row(page: &mut Page, offset: usize, row: &[u8], padding: usize)
    requires { (offset + length row.now + padding ≤ 8192) × (padding < 8) }
    ensures { page.new ≡ write_row page.old offset row.now padding }
{
    let end = offset + row.len();
    page[offset..end].copy_from_slice(row);
    page[end..end + padding].fill(0);
}

fn write_version(page: &mut Page, offset: u16, header: &VersionHeader, row: &[u8])
    requires { offset + up8 (24 + length row.now) ≤ 8192 }
    ensures { page.new ≡ write_version page.old offset header.now row.now }
{
    let len = 24 + row.len();
    write_header(page, offset, header);
    write_row(page, offset as usize + 24, row, padded(len) - len);
}

// Writes a version at `offset`, which becomes `upper`, and its pointer.
fn put_at(page: &mut Page, offset: u16, lower: u16, number: u16, header: &VersionHeader, row: &[u8])
    requires { (offset + up8 (24 + length row.now) ≤ 8192) × (number ≤ 2043) }
    ensures { page.new ≡ put_at page.old offset lower number header.now row.now }
{
    write_version(page, offset, header, row);
    write16(page, 14, offset);
    write16(page, 12, lower);
    let pointer = Pointer::Normal {
        offset,
        len: 24 + row.len() as u16,
    };
    write32(page, 20 + 4 * number, pointer.into());
}

// Where the pointers end once a version has this pointer: a new one takes 4 bytes.
fn lower_with(header: &PageHeader, number: u16) -> u16
    requires { header.now.lower < 65532 }
    ensures { result ≡ cond (leb number (pointer_count header.now)) header.now.lower (header.now.lower + 4) }
{
    if number <= header.pointer_count() {
        header.lower
    } else {
        header.lower + 4
    }
}

// Where a row goes with its header and padding: just below the versions that are there.
fn place_for(header: &PageHeader, row_len: usize) -> u16
    requires { up8 (24 + row_len) ≤ header.now.upper }
    ensures { result ≡ header.now.upper - up8 (24 + row_len) }
{
    header.upper - padded(24 + row_len) as u16
}

// The header of a new version.
fn new_header(block: u32, number: u16, creator: u32, origin: Origin) -> VersionHeader
    ensures { result ≡ encoded (new_version creator (address_of block number) origin []) }
{
    let own = Address {
        block,
        pointer: number,
    };
    VersionFields::made(creator, own, origin).into()
}

// Puts a new version on a page that has room for it, and answers its pointer.
pub fn put_version(page: &mut Page, block: u32, creator: u32, origin: Origin, row: &[u8]) -> u16
    requires upper { (header_of page.old).upper ≤ 8192 }
    requires room { takes 0 page.old (24 + length row.now) ≡ true }
    ensures pointer { result ≡ free_pointer page.old }
    ensures page { page.new ≡ put_version page.old (placed_version block page.old creator origin row.now) }
{
    let header = PageHeader::read(page);
    let number = free_pointer(page);
    let offset = place_for(&header, row.len());
    let lower = lower_with(&header, number);
    let new = new_header(block, number, creator, origin);
    put_at(page, offset, lower, number, &new, row);
    number
}
