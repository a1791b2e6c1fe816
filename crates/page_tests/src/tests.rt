// What the rules say of these pages.
use heap_report::{SizeFault, pages_in};
use page::{
    Kind, Mark, Page, PageHeader, State, line_pointer_at, row_fits, standard_kinds, version_at,
};
use page_build::{
    FRESH, bare_page, hot_pair, normal, one_row, put_pointer, put_version, put16, redirect,
};
use page_check::{Broken, HeaderRule, PageRule, PointerRule, first_broken, is_lawful};
use std::test::Fail;

fn broken(page: &Page) -> Option<Broken> {
    first_broken(standard_kinds(), page, 0)
}

fn lawful(page: &Page) -> bool {
    is_lawful(standard_kinds(), page, 0)
}

#[test]
fn at_most_291_pointers(rt: HostRuntime) {
    assert!(rt; lawful(&bare_page(24, 8192)));
    assert!(rt; lawful(&bare_page(24 + 4 * 291, 8192)));
    assert!(rt;
        broken(&bare_page(24 + 4 * 292, 8192)) == Some(Broken::InHeader(HeaderRule::PointerLimit))
    );
}

#[test]
fn lower_and_upper_at_their_limits(rt: HostRuntime) {
    assert!(rt; lawful(&bare_page(1184, 1184)));
    assert!(rt;
        broken(&bare_page(20, 8192)) == Some(Broken::InHeader(HeaderRule::LowerPastHeader))
    );
    assert!(rt; broken(&bare_page(1184, 1176)) == Some(Broken::InHeader(HeaderRule::LowerByUpper)));
    assert!(rt; broken(&bare_page(24, 8200)) == Some(Broken::InHeader(HeaderRule::UpperInPage)));
    assert!(rt; broken(&bare_page(26, 8192)) == Some(Broken::InHeader(HeaderRule::WholePointers)));
    assert!(rt; broken(&bare_page(24, 8188)) == Some(Broken::InHeader(HeaderRule::UpperAligned)));
}

// No row of the standard kinds has a length that is a multiple of 8, so a kind of its own makes the edge exact.
#[test]
fn a_version_may_end_at_8192(rt: HostRuntime) {
    let kinds = [Kind { code: 9, body: 7 }, Kind { code: 10, body: 8 }];
    let mut page = bare_page(28, 8160);
    put_version(&mut page, 8160, FRESH, 9);
    put_pointer(&mut page, 1, normal(8160, 32));
    assert!(rt; is_lawful(&kinds, &page, 0));
    put_version(&mut page, 8160, FRESH, 10);
    put_pointer(&mut page, 1, normal(8160, 33));
    assert!(rt;
        first_broken(&kinds, &page, 0) == Some(Broken::AtPointer(1, PointerRule::EndsInPage))
    );
}

#[test]
fn a_redirect_leads_to_a_heap_only_version(rt: HostRuntime) {
    let mut page = one_row();
    put16(&mut page, 12, 32);
    put_pointer(&mut page, 2, redirect(1));
    assert!(rt; broken(&page) == Some(Broken::Among(2, PageRule::RedirectTarget)));
    put16(&mut page, 8152 + 18, 0x8001);
    assert!(rt; lawful(&page));
}

#[test]
fn a_heap_only_version_is_named_once(rt: HostRuntime) {
    let mut page = hot_pair(36);
    assert!(rt; lawful(&page));
    put_pointer(&mut page, 3, redirect(2));
    assert!(rt; broken(&page) == Some(Broken::Among(3, PageRule::NamedOnce)));
}

// The same bytes on another block: the ctid of pointer 1 then names a version of block 0, and the redirect is the one name.
#[test]
fn a_name_is_of_its_own_block(rt: HostRuntime) {
    let mut page = hot_pair(36);
    put_pointer(&mut page, 3, redirect(2));
    assert!(rt; !is_lawful(standard_kinds(), &page, 0));
    assert!(rt; is_lawful(standard_kinds(), &page, 1));
}

// The words and numbers of the worked page of the format's description.
#[test]
fn fields_of_the_worked_page(rt: HostRuntime) -> Result<(), Fail> {
    let mut page = one_row();
    put_pointer(&mut page, 1, 0x0042_9fd8);
    let header = PageHeader::read(&page);
    assert!(rt; header.lower == 28 && header.upper == 8152 && header.pointer_count() == 1);
    let at = line_pointer_at(&page, 1);
    assert!(rt; at.offset == 8152 && at.len == 33 && at.state == State::Normal);
    assert!(rt; line_pointer_at(&page, 60000).state == State::Unused);
    let version = version_at(&page, at.offset).ok_or("no version")?;
    assert!(rt; version.creator == 100 && version.ctid.pointer == 1);
    assert!(rt; version.has(Mark::RemoverInvalid) && !version.has(Mark::HeapOnly));
    assert!(rt; version_at(&page, 8169).is_none());
    Ok(())
}

#[test]
fn rows_of_the_table(rt: HostRuntime) {
    assert!(rt; row_fits(standard_kinds(), &[1, 7, 0, 0, 0, 0, 0, 0x48, 0x41]));
    assert!(rt; !row_fits(standard_kinds(), &[1, 7, 0, 0, 0, 0, 0, 0x48]));
    assert!(rt; !row_fits(standard_kinds(), &[7, 7, 0, 0, 0, 0, 0, 0x48, 0x41]));
    assert!(rt; !row_fits(standard_kinds(), &[]));
}

#[test]
fn sizes_of_images(rt: HostRuntime) -> Result<(), Fail> {
    assert!(rt; pages_in(8192) == Ok(1));
    assert!(rt; pages_in(64 * 8192) == Ok(64));
    assert!(rt; pages_in(0) == Err(SizeFault::Empty));
    // Which fault it is, and not which size it tells.
    assert!(rt; matches!(pages_in(65 * 8192), Err(SizeFault::TooManyPages(_))));
    let Err(fault) = pages_in(8200) else {
        return Err(Fail::new("8200 bytes are taken"));
    };
    let text = format!(in rt.alloc(); "{fault}")?;
    assert!(rt;
        text.as_str()
            == "8200 bytes are not whole pages (8 over); a heap image has 1 to 64 whole pages of 8192 bytes"
    );
    Ok(())
}
