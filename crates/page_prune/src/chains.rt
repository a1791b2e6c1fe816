// The table of links by which a page is pruned, and the chains along it.
ghost use Rattle.std.specs.Prelude.{◌≡◌, ◌+◌, IfSome, length};
ghost use Rattle.std.specs.Iterator.{YieldsFirst, item_count};
ghost use Rattle.std.specs.Option.{unwrap_or};
ghost use Rattle.page_prune.specs.Chains.{left, lost};
ghost use Rattle.page_prune.specs.Members.{next_in, dead_in, ahead, dead_along};

// What is known of a version of a chain: which heap-only version of its page it links on to, and whether it is dead. A redirect
// links on to its target.
#[derive(Clone, Copy, PartialEq, Eq, Debug, Default)]
pub struct Member {
    pub next: Option<u16>,
    pub dead: bool,
}

// A table by pointer number has a place for each number that a lawful page can have, and place 0, which is that of no pointer.
pub const NUMBERS: usize = 292;

// The members of all chains of a page, by pointer number.
pub type Members = [Member; NUMBERS];

fn next_of(members: &Members, number: u16) -> Option<u16>
    ensures { unwrap_or result 0 ≡ next_in members.now number }
{
    members.get(number as usize).and_then(|member| member.next)
}

pub(crate) fn is_dead(members: &Members, number: u16) -> bool
    ensures { result ≡ dead_in members.now number }
{
    members
        .get(number as usize)
        .is_some_and(|member| member.dead)
}

// The members of a chain from one on, `limit` of them at most.
#[derive(Clone, Copy)]
pub(crate) struct Chain<'a> {
    pub(crate) members: &'a Members,
    pub(crate) at: Option<u16>,
    pub(crate) limit: u16,
}

impl<'a> Iterator for Chain<'a> {
    type Item = u16;

    ghost next_gives = { YieldsFirst ahead };

    ghost remaining = { item_count ahead };

    fn next(&mut self) -> Option<u16> {
        self.step()
    }
}

impl<'a> Chain<'a> {
    // The next member. It takes 1 from the limit, which a clause on `next` cannot say: two places of a chain tell by their limits
    // how many members stand between them.
    fn step(&mut self) -> Option<u16>
        ensures gives { YieldsFirst ahead self.old result self.new }
        ensures limit { IfSome result (λ _. self.new.limit + 1 ≡ self.old.limit) }
    {
        // Numbers count from 1: a link to 0 leads nowhere.
        let Some(number @ 1..) = self.at else {
            return None;
        };
        if self.limit == 0 {
            return None;
        }
        self.limit -= 1;
        self.at = next_of(self.members, number);
        Some(number)
    }

    // The part behind the last dead member, which is left of the chain.
    #[tactic(auto, using(crate::proofs::Walks::limit_along))]
    pub(crate) fn left(mut self) -> Chain<'a>
        ensures part { ahead result ≡ left (dead_along self.entry) (ahead self.entry) }
        ensures limit { result.limit + length (lost (dead_along self.entry) (ahead self.entry)) ≡ self.entry.limit }
    {
        let members = self.members;
        let mut left = self;
        while let Some(number) = self.step() {
            if is_dead(members, number) {
                left = self;
            }
        }
        left
    }

    // How many members the chain loses: its last dead one and all before it.
    pub(crate) fn lost_count(self) -> usize
        ensures { result ≡ length (lost (dead_along self.entry) (ahead self.entry)) }
    {
        usize::from(self.limit - self.left().limit)
    }
}
