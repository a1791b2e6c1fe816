// Whether redirects lead to heap-only versions, and whether a heap-only version is named twice, each in one pass.
ghost use Rattle.std.specs.Prelude.{◌≡◌, ◌≤◌, false, not, ◌&&◌, ◌==◌, IfSome, unwrap_or};
ghost use Rattle.std.specs.List.{find, range_with_len};
ghost use Rattle.std.specs.Option.{option_map_or};
ghost use Rattle.page.specs.Headers.{count_of};
ghost use Rattle.page.specs.LinePointers.{pointer_at};
ghost use Rattle.page.specs.Slots.{slot_of, slot_no, header_no};
ghost use Rattle.page.specs.Versions.{has_mark};
ghost use Rattle.page.specs.declared.versions.Mark.TheVariants.{HeapOnly};
ghost use Rattle.page_check.specs.Rules.{is_heap_only, is_made_by, some_name, name_of, leads_well};
ghost use Rattle.page_check.specs.Lawful.{among_broken};
ghost use Rattle.page_check.specs.Marking.{AllLie, name_free, name_taken};
ghost use Rattle.page_check.specs.declared.rules.PageRule.TheVariants.{RedirectTarget, NamedOnce};

use crate::rules::{Broken, PageRule};
use crate::sound::SoundPage;
use page::{
    Mark, Page, Pointer, pointer_at, pointer_count, pointer_numbers, version_at, version_of,
};

// Whether a line pointer has a heap-only version. This and the next take any page, and not the type of `sound.rt`: they are the
// interface for crates that have pages as plain bytes. What the slot says is known where the versions lie inside the page.
#[tactic(auto, using(crate::proofs::Slots::heap_only_no))]
pub fn is_heap_only(page: &Page, number: u16) -> bool
    ensures header { result ≡ option_map_or (λ v. has_mark v HeapOnly) (header_no page.now number) false }
    ensures slot { AllLie page.now → result ≡ is_heap_only (slot_no page.now number) }
{
    version_of(page, number).is_some_and(|version| version.has(Mark::HeapOnly))
}

// Whether a line pointer has a heap-only version of a creator.
#[tactic(auto, using(crate::proofs::Slots::made_by_no))]
pub fn is_made_by(page: &Page, number: u16, creator: u32) -> bool
    ensures header { result ≡ option_map_or (λ v. has_mark v HeapOnly && v.creator == creator) (header_no page.now number) false }
    ensures slot { AllLie page.now → result ≡ is_made_by creator (slot_no page.now number) }
{
    version_of(page, number).is_some_and(|version| version.has(Mark::HeapOnly)
        && version.creator == creator)
}

// Takes a name, where there is one, and says whether it was free.
fn take_name(named: &mut [bool; 292], name: Option<u16>) -> bool
    requires { IfSome name (λ t. (1 ≤ t) × (t ≤ 291)) }
    ensures answer { result ≡ name_free named.old (unwrap_or name 0) }
    ensures named { named.new ≡ name_taken named.old (unwrap_or name 0) }
{
    let Some(name) = name else {
        return true;
    };
    let free = !named[name as usize];
    named[name as usize] = true;
    free
}

impl SoundPage<'_> {
    // The number of the heap-only version that a line pointer names.
    fn name_of(&self, number: u16) -> Option<u16>
        requires first { 1 ≤ number }
        requires last { number ≤ count_of self.now.page.now }
        ensures { result ≡ some_name (name_of self.now.block (slot_no self.now.page.now) (slot_of self.now.page.now (pointer_at self.now.page.now number))) }
    {
        match pointer_at(self.page, number) {
            Pointer::Unused | Pointer::Dead => None,
            Pointer::Redirect(target) => is_heap_only(self.page, target).then_some(target),
            Pointer::Normal { offset, len: _ } => {
                let version = version_at(self.page, offset)?;
                let named = version.ctid.pointer;
                let names = version.has(Mark::HotUpdated)
                    && version.ctid.block == self.block
                    && is_made_by(self.page, named, version.remover);
                names.then_some(named)
            }
        }
    }

    // Whether a redirect leads to a heap-only version. A match, since it reads the number that a redirect holds.
    fn leads_well(&self, number: u16) -> bool
        ensures { result ≡ leads_well (slot_no self.now.page.now) (slot_of self.now.page.now (pointer_at self.now.page.now number)) }
    {
        match pointer_at(self.page, number) {
            Pointer::Redirect(target) => is_heap_only(self.page, target),
            _ => true,
        }
    }

    fn stray_redirect(&self) -> Option<u16>
        ensures { result ≡ find (λ k. not (leads_well (slot_no self.now.page.now) (slot_of self.now.page.now (pointer_at self.now.page.now k)))) (range_with_len 1 (count_of self.now.page.now)) }
    {
        pointer_numbers(self.page).find(|number| !self.leads_well(*number))
    }

    // The first redirect that does not lead to a heap-only version.
    #[tactic(auto, using(crate::proofs::Slots::stray_broken))]
    pub(crate) fn first_stray_redirect(&self) -> Option<Broken>
        ensures { result ≡ among_broken self.now.block self.now.page.now RedirectTarget }
    {
        self.stray_redirect()
            .map(|number| Broken::Among(number, PageRule::RedirectTarget))
    }

    // The first line pointer that names a heap-only version that an earlier one names already.
    pub(crate) fn first_named_twice(&self) -> Option<Broken>
        ensures { result ≡ among_broken self.now.block self.now.page.now NamedOnce }
    {
        let mut named = [false; 292];
        // A range, and not `pointer_numbers`: over that the loop runs by an iterator, and its invariant has no number.
        for number in 1..pointer_count(self.page) + 1 {
            if !take_name(&mut named, self.name_of(number)) {
                return Some(Broken::Among(number, PageRule::NamedOnce));
            }
        }
        None
    }
}
