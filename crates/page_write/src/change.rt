// Rewrites the headers of versions that stand on a page.
ghost use Rattle.std.specs.Prelude.{◌≡◌, ◌+◌, ◌≤◌};
ghost use Rattle.page_write.specs.Changing.{rewrite, mark_removed};

use crate::fields::{Removal, VersionFields};
use page::{Address, Page, VersionHeader, version_place, write16, write32};

// Writes the fields of a header that may change: remover, ctid and the two words of bits.
pub fn rewrite_header(page: &mut Page, offset: u16, header: &VersionHeader)
    requires { offset + 24 ≤ 8192 }
    ensures { page.new ≡ rewrite page.old offset header.now }
{
    write32(page, offset + 4, header.remover);
    write16(page, offset + 12, (header.ctid.block / 0x1_0000) as u16);
    write16(page, offset + 14, (header.ctid.block % 0x1_0000) as u16);
    write16(page, offset + 16, header.ctid.pointer);
    write16(page, offset + 18, header.infomask2);
    write16(page, offset + 20, header.infomask);
}

// Marks the old version of an update or a delete, which stands at the address `own` of this page.
pub fn mark_removed(page: &mut Page, own: Address, remover: u32, removal: Removal)
    ensures { page.new ≡ mark_removed page.old own remover removal }
{
    let Some((offset, old)) = version_place(page, own.pointer) else {
        return;
    };
    let removed = VersionFields::from(&old).removed(remover, own, removal);
    rewrite_header(page, offset, &removed.into());
}
