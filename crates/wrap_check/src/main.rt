// Takes two-bit pages under the cache across the end of the numbers, and prints what they say.
//
// The memory has 64 slots, and holds committed codes at first, as a lap before would have left them. What is printed is
// compared with `stdout`, which was written by hand from the rules. Also here, and proved: what callers of the sources
// answer (`commits`).

#![tactic(auto)]

mod commits;
mod report;

use crate::commits::{commit_in_pages, commit_in_plain};
use crate::report::{close, forget, open, status};
use clog::pages::TwoBitPages;
use status_cache::cache::StatusCache;
use std::io;
use xid::source::StatusSource;
use xid::statuses::End;

// Eight numbers from 4,294,967,290 on, some of them ended; then the window moves on.
fn across_the_end<S: StatusSource>(rt: &HostRuntime, source: &mut S) -> io::Result<()> {
    for _ in 0..8 {
        open(rt, source)?;
    }
    close(rt, source, 4_294_967_290, End::Abort)?;
    close(rt, source, 4_294_967_291, End::Commit)?;
    close(rt, source, 4_294_967_295, End::Commit)?;
    close(rt, source, 4, End::Abort)?;
    close(rt, source, 4, End::Commit)?;
    close(rt, source, 2, End::Commit)?;
    forget(rt, source, 4_294_967_293)?;
    forget(rt, source, 4_294_967_292)
}

// What is known of the numbers round the end. The second time the cache answers for those that ended.
fn ask<S: StatusSource>(rt: &HostRuntime, source: &mut S) -> io::Result<()> {
    for x in 4_294_967_289..=4_294_967_295 {
        status(rt, source, x)?;
    }
    for x in 0..=5 {
        status(rt, source, x)?;
    }
    Ok(())
}

// Opens and commits numbers until the source is full.
fn fill<S: StatusSource>(rt: &HostRuntime, source: &mut S) -> io::Result<()> {
    for opened in 0..1000 {
        let Ok(x) = source.open_next() else {
            return println!(rt; "opened and committed {opened} more, then full");
        };
        let _ = source.close(x, End::Commit);
    }
    Ok(())
}

// Ends what is still open before the wrap, and lets the window start at 60, whose slot is that of 4,294,967,292.
fn next_lap<S: StatusSource>(rt: &HostRuntime, source: &mut S) -> io::Result<()> {
    close(rt, source, 4_294_967_292, End::Commit)?;
    close(rt, source, 4_294_967_293, End::Commit)?;
    close(rt, source, 4_294_967_294, End::Commit)?;
    close(rt, source, 3, End::Abort)?;
    status(rt, source, 4_294_967_292)?;
    forget(rt, source, 60)?;
    status(rt, source, 4_294_967_292)?;
    status(rt, source, 60)?;
    open(rt, source)?;
    status(rt, source, 60)?;
    status(rt, source, 4_294_967_292)
}

fn main(rt: HostRuntime) -> io::Result<()> {
    let mut memory = [0b0101_0101; 16];
    let Ok(pages) = TwoBitPages::new(&mut memory, 4_294_967_290) else {
        return Ok(());
    };
    let mut source = StatusCache::new(pages);
    ask(&rt, &mut source)?;
    across_the_end(&rt, &mut source)?;
    ask(&rt, &mut source)?;
    ask(&rt, &mut source)?;
    fill(&rt, &mut source)?;
    next_lap(&rt, &mut source)?;
    report_commits(&rt)
}

// A transaction begun and committed in new sources, and refusals.
fn report_commits(rt: &HostRuntime) -> io::Result<()> {
    let mut memory = [0; 16];
    report::commit(rt, commit_in_pages(&mut memory, 4_294_967_295))?;
    report::commit(rt, commit_in_pages(&mut memory, 2))?;
    let mut odd = [0; 48];
    report::commit(rt, commit_in_pages(&mut odd, 2))?;
    report::commit(rt, commit_in_plain(3))?;
    report::commit(rt, commit_in_plain(2))
}
