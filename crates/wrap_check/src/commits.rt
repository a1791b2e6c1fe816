// One transaction in a new source.
ghost use Rattle.std.specs.Prelude.{◌≡◌, length};
ghost use Rattle.wrap_check.specs.Commits.{committed_one, in_pages, in_plain};

use clog::pages::TwoBitPages;
use plain_source::plain::PlainSource;
use refusal::Refusal;
use status_cache::cache::StatusCache;
use xid::source::{StatusSource, TurnedDown};
use xid::statuses::{End, Status};

// Opens a number, commits it, and asks for its status, in any source.
pub fn commit_one<S: StatusSource>(source: &mut S) -> Result<(u32, Status), TurnedDown>
    ensures { result ≡ committed_one (S.meaning source.old) }
{
    let x = source.open_next()?;
    source.close(x, End::Commit)?;
    let status = source.status(x);
    Ok((x, status))
}

// The same in a cache over new two-bit pages, or the refusal.
pub fn commit_in_pages(memory: &mut [u8], oldest: u32) -> Result<(u32, Status), Refusal>
    ensures { result ≡ in_pages (length memory.old) oldest }
{
    // A `match`, and not `map_err`: the check does not follow a `&mut` of the memory into a closure.
    let pages = match TwoBitPages::new(memory, oldest) {
        Ok(pages) => pages,
        Err(refused) => return Err(refused.why),
    };
    let mut source = StatusCache::new(pages);
    commit_one(&mut source).map_err(|_| Refusal::SourceFull)
}

// The same in a new plain source: how a source is made is no part of the trait.
pub fn commit_in_plain(oldest: u32) -> Result<(u32, Status), Refusal>
    ensures { result ≡ in_plain oldest }
{
    let mut source = PlainSource::new(oldest).ok_or(Refusal::NumberOutOfRange)?;
    commit_one(&mut source).map_err(|_| Refusal::SourceFull)
}
