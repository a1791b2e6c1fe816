// Whether versions overlap, in one pass: the page is 1,024 cells of eight bytes, and each version takes its own.
ghost use Rattle.std.specs.Prelude.{◌≡◌, not};
ghost use Rattle.std.specs.List.{list_all};
ghost use Rattle.page_check.specs.Lawful.{among_broken};
ghost use Rattle.page_check.specs.Marking.{LiesIn, cells_free, cells_taken};
ghost use Rattle.page_check.specs.declared.rules.PageRule.TheVariants.{NoOverlap};

use crate::rules::{Broken, PageRule};
use crate::sound::SoundPage;
use page::{Pointer, pointer_at, pointer_count};

fn all_free(cells: &[bool]) -> bool
    ensures { result ≡ list_all not cells.now }
{
    cells.iter().all(|taken| !*taken)
}

// Takes the cells of a version, and says whether all of them were free.
fn take_cells(cells: &mut [bool; 1024], pointer: Pointer) -> bool
    requires { LiesIn pointer }
    ensures answer { result ≡ cells_free cells.old pointer }
    ensures cells { cells.new ≡ cells_taken cells.old pointer }
{
    let Pointer::Normal { offset, len } = pointer else {
        return true;
    };
    let from = offset as usize / 8;
    let to = (offset as usize + len as usize + 7) / 8;
    let free = all_free(&cells[from..to]);
    cells[from..to].fill(true);
    free
}

impl SoundPage<'_> {
    // The first line pointer whose version overlaps that of an earlier one.
    pub(crate) fn first_overlap(&self) -> Option<Broken>
        ensures { result ≡ among_broken self.now.block self.now.page.now NoOverlap }
    {
        let mut cells = [false; 1024];
        // A range, and not `pointer_numbers`: over that the loop runs by an iterator, and its invariant has no number.
        for number in 1..pointer_count(self.page) + 1 {
            if !take_cells(&mut cells, pointer_at(self.page, number)) {
                return Some(Broken::Among(number, PageRule::NoOverlap));
            }
        }
        None
    }
}
