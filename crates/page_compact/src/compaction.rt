// The versions of a page laid anew.
ghost use Rattle.std.specs.Prelude.{◌≡◌, ◌+◌, ◌-◌, ◌≤◌};
ghost use Rattle.page.specs.Headers.{header_of, count_of};
ghost use Rattle.page.specs.LinePointers.{pointer_at};
ghost use Rattle.page_check.specs.Marking.{LiesIn};
ghost use Rattle.page_compact.specs.Compaction.{LawfulPage, Packs, size_of, top_to, cleared, laid, laid_to, compacted};

use page::{Page, PageHeader, Pointer, pointer_at, pointer_count, write16, write32};
use page_room::padded;

// Sets everything behind the line pointers to zero.
fn clear_versions(page: &mut Page)
    requires { (header_of page.old).lower ≤ 8192 }
    ensures { page.new ≡ cleared page.old }
{
    let lower = PageHeader::read(page).lower as usize;
    page[lower..].fill(0);
}

// Lays the version of a line pointer of `old` right below `top`, and says where it begins. What it asks, it asks of that pointer.
fn lay(page: &mut Page, old: &Page, number: u16, top: u16) -> u16
    requires number { number ≤ 291 }
    requires lies { LiesIn (pointer_at old.now number) }
    requires room { size_of (pointer_at old.now number) ≤ top }
    requires top { top ≤ 8192 }
    ensures begin { result ≡ top - size_of (pointer_at old.now number) }
    ensures page { page.new ≡ laid old.now page.old (top - size_of (pointer_at old.now number)) number (pointer_at old.now number) }
{
    let Pointer::Normal { offset, len } = pointer_at(old, number) else {
        return top;
    };
    let from = offset as usize;
    let to = top as usize - padded(len as usize);
    let begin = to as u16;
    page[to..to + len as usize].copy_from_slice(&old[from..from + len as usize]);
    write32(
        page,
        20 + 4 * number,
        Pointer::Normal { offset: begin, len }.into(),
    );
    begin
}

// Lays the versions of all line pointers of `old`, and says where the lowest begins.
fn lay_all(page: &mut Page, old: &Page) -> u16
    requires few { count_of old.now ≤ 291 }
    requires packs { Packs old.now (count_of old.now) }
    requires cleared { page.old ≡ cleared old.now }
    ensures top { result ≡ top_to old.now (count_of old.now) }
    ensures page { page.new ≡ laid_to old.now (count_of old.now) }
{
    let mut top = 8192;
    // A range, and not `pointer_numbers`: over that the loop runs by an iterator, and its invariant has no number.
    for number in 1..pointer_count(old) + 1 {
        top = lay(page, old, number, top);
    }
    top
}

// Lays the versions of a lawful page anew: in the order of their pointers, from byte 8192 down, with everything from lower
// to the lowest of them and all padding zero.
pub fn compact_page(page: &mut Page)
    requires { LawfulPage page.old }
    ensures { page.new ≡ compacted page.old }
{
    let old = *page;
    clear_versions(page);
    let upper = lay_all(page, &old);
    write16(page, 14, upper);
}
