// What the rules among the pointers rest on.
ghost use Rattle.std.specs.Prelude.{◌≤◌};
ghost use Rattle.page.specs.Headers.{count_of};
ghost use Rattle.page_check.specs.Marking.{AllLie, AllLie-prop};

use page::Page;

// The page of a block, with no more pointers than a page may have, and with its versions where their pointers' rules want them.
// A number is an argument with its bounds: a type for a number of a page would have to hold the page as well.
#[derive(Clone, Copy)]
pub(crate) struct SoundPage<'a> {
    pub page: &'a Page,
    pub block: u32,
    ghost few: { count_of page.now ≤ 291 },
    ghost lie: { AllLie page.now } by { AllLie-prop page.now },
}
