// The check of a whole page.
ghost use Rattle.std.specs.Prelude.{◌≡◌, not, is_some, IfSome};
ghost use Rattle.std.specs.Option.{option_or};
ghost use Rattle.page_check.specs.Lawful.{is_lawful, among_broken, first_broken, Fails};
ghost use Rattle.page_check.specs.declared.rules.PageRule.TheVariants.{NoOverlap, RedirectTarget, NamedOnce};

use crate::own::{first_own_break, header_break};
use crate::rules::Broken;
use crate::sound::SoundPage;
use page::{Kind, Page, PageHeader};

impl SoundPage<'_> {
    // The rules among the pointers.
    fn among_broken(&self) -> Option<Broken>
        ensures { result ≡ option_or (among_broken self.now.block self.now.page.now NoOverlap) (option_or (among_broken self.now.block self.now.page.now RedirectTarget) (among_broken self.now.block self.now.page.now NamedOnce)) }
    {
        // Not `or_else`, whose clause tells nothing of what these closures give.
        if let Some(broken) = self.first_overlap() {
            return Some(broken);
        }
        if let Some(broken) = self.first_stray_redirect() {
            return Some(broken);
        }
        self.first_named_twice()
    }
}

// Rule by rule: each pass rests on those before it, which say that pointers and versions lie inside the page.
fn find_broken(kinds: &[Kind], page: &Page, block: u32) -> Option<Broken>
    ensures { result ≡ first_broken kinds.now block page.now }
{
    let header = PageHeader::read(page);
    if let Some(rule) = header_break(&header) {
        return Some(Broken::InHeader(rule));
    }
    if let Some(broken) = first_own_break(kinds, page) {
        return Some(broken);
    }
    SoundPage { page, block }.among_broken()
}

// The first rule that the page of a block breaks, and where: none exactly where the page is lawful.
pub fn first_broken(kinds: &[Kind], page: &Page, block: u32) -> Option<Broken>
    ensures first { result ≡ first_broken kinds.now block page.now }
    ensures none { not (is_some result) ≡ is_lawful kinds.now block page.now }
    ensures fails { IfSome result (Fails kinds.now block page.now) }
{
    find_broken(kinds, page, block)
}

// Whether the page of a block is lawful.
pub fn is_lawful(kinds: &[Kind], page: &Page, block: u32) -> bool
    ensures { result ≡ is_lawful kinds.now block page.now }
{
    first_broken(kinds, page, block).is_none()
}
