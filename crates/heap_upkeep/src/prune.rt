// Pruning of a page at a horizon.
ghost use Rattle.std.specs.Prelude.{◌≡◌, ◌≤◌};
ghost use Rattle.page.specs.Headers.{count_of};
ghost use Rattle.heap_upkeep.specs.Pruning.{LawfulOn, Prunes};

use crate::dead::members_of;
use page::Page;
use page_prune::{PruneCount, prune_page};
use xid::source::StatusSource;

// Prunes the lawful page of a block: each chain loses its last dead member and all before it, and dead heap-only versions in
// no chain go as well. Answers how many versions went, and how many pointers were made dead. Whatever the source says, the page
// stays lawful.
pub fn prune_at<S: StatusSource>(
    source: &mut S,
    horizon: u32,
    page: &mut Page,
    block: u32,
) -> PruneCount
    requires { LawfulOn block page.old }
    ensures lawful { LawfulOn block page.new }
    ensures few { count_of page.new ≤ 291 }
    ensures told { Prunes (S.meaning source.old).status horizon block page.old page.new result.removed result.made_dead }
    ensures kept { S.meaning source.new ≡ S.meaning source.old }
{
    let members = members_of(source, page, block, horizon);
    prune_page(page, &members)
}
