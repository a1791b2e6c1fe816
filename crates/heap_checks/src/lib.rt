// What calls ask of the numbers on pages, before they trust a status source or let it forget.
//
// Proved here: whether all unmarked creators and removers of a version or of a page lie in a source's window, so that it
// can tell their fate; and whether some version of some page still needs a number before a cutoff. Both are about bytes
// and numbers alone: no source is asked. That versions lie inside is asked of a page, and is not
// a type of its own: these functions are the interface for the calls, which have pages as plain bytes.

#![tactic(auto)]

ghost use Rattle.std.specs.Prelude.{◌≡◌, true, []};
ghost use Rattle.std.specs.Option.{option_map_or};
ghost use Rattle.page.specs.LinePointers.{pointer_at};
ghost use Rattle.page.specs.Slots.{decoded, slot_of, header_in};
ghost use Rattle.page_check.specs.Marking.{LiesIn, AllLie, PagesLie};
ghost use Rattle.heap_checks.specs.Numbers.{version_known, page_known, version_needs, slot_needs, still_needed};

use page::{
    Mark, Page, Pointer, VersionHeader, pointer_at, pointer_count, pointer_numbers, version_at,
};
use xid::numbers::precedes;
use xid::window::Window;

// Whether a source with this window can tell the fate of a version's creator and remover: each is marked, or lies in it.
pub fn is_version_known(window: Window, version: &VersionHeader) -> bool
    ensures { result ≡ version_known window.oldest window.next (decoded version.now []) }
{
    let creator = version.has(Mark::CreatorCommitted)
        || version.has(Mark::CreatorInvalid)
        || window.contains(version.creator);
    let remover = version.remover == 0
        || version.has(Mark::RemoverCommitted)
        || version.has(Mark::RemoverInvalid)
        || window.contains(version.remover);
    creator && remover
}

// The same of the version of a line pointer, where it has one inside the page. Taken apart here, and not by `version_in`, since a
// page is asked for each of its pointers: what is not looked at stays unread.
fn is_slot_known(window: Window, page: &Page, number: u16) -> bool
    ensures { result ≡ option_map_or (λ v. version_known window.oldest window.next (decoded v [])) (header_in page.now (pointer_at page.now number)) true }
{
    let Pointer::Normal { offset, len: _ } = pointer_at(page, number) else {
        return true;
    };
    let Some(version) = version_at(page, offset) else {
        return true;
    };
    is_version_known(window, &version)
}

// The same of all versions of a page.
pub fn is_page_known(window: Window, page: &Page) -> bool
    requires { AllLie page.now }
    ensures { result ≡ page_known window.oldest window.next page.now }
{
    pointer_numbers(page).all(|number| is_slot_known(window, page, number))
}

// Whether a version has an unfrozen creator or a remover that precedes the cutoff.
pub fn is_version_needing(cutoff: u32, version: &VersionHeader) -> bool
    ensures { result ≡ version_needs cutoff (decoded version.now []) }
{
    // By its two marks, as in reports: no shorter as a function of its own.
    let frozen = version.has(Mark::CreatorCommitted) && version.has(Mark::CreatorInvalid);
    let creator = !frozen && precedes(version.creator, cutoff);
    let remover = version.remover != 0 && precedes(version.remover, cutoff);
    creator || remover
}

// Whether a line pointer has a version that needs a number before the cutoff.
fn is_slot_needing(cutoff: u32, page: &Page, number: u16) -> bool
    requires { LiesIn (pointer_at page.now number) }
    ensures { result ≡ slot_needs cutoff (slot_of page.now (pointer_at page.now number)) }
{
    let Pointer::Normal { offset, len: _ } = pointer_at(page, number) else {
        return false;
    };
    let Some(version) = version_at(page, offset) else {
        return false;
    };
    is_version_needing(cutoff, &version)
}

// Whether some version of some page still needs a number before the cutoff. By a rule of the project both loops, over blocks and
// over pointers, are left by a label.
pub fn is_still_needed(pages: &[Page], cutoff: u32) -> bool
    requires { PagesLie pages.now }
    ensures { result ≡ still_needed cutoff pages.now }
{
    let mut needed = false;
    'blocks: for block in 0..pages.len() {
        let page = &pages[block];
        for i in 0..pointer_count(page) {
            if is_slot_needing(cutoff, page, i + 1) {
                needed = true;
                break 'blocks;
            }
        }
    }
    needed
}
