// Empty pages.
ghost use Rattle.std.specs.Prelude.{◌≡◌};
ghost use Rattle.page_write.specs.Empty.{formatted, empty_page};

use page::{PAGE_SIZE, Page, write16};

// Writes the fields of an empty page's header that are not 0.
fn write_empty_header(page: &mut Page)
    ensures { page.new ≡ formatted page.old }
{
    write16(page, 12, 24);
    write16(page, 14, 8192);
    write16(page, 16, 8192);
    write16(page, 18, 0x2004);
}

pub fn empty_page() -> Page
    ensures { result ≡ empty_page }
{
    let mut page = [0; PAGE_SIZE];
    write_empty_header(&mut page);
    page
}
