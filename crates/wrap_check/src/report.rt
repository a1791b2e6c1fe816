// One line for each call.
use refusal::Refusal;
use std::io;
use xid::source::StatusSource;
use xid::statuses::{End, Status};
use xid::window::Window;

pub fn open<S: StatusSource>(rt: &HostRuntime, source: &mut S) -> io::Result<()> {
    match source.open_next() {
        Ok(x) => println!(rt; "opened {x}"),
        Err(_) => println!(rt; "full"),
    }
}

pub fn close<S: StatusSource>(
    rt: &HostRuntime,
    source: &mut S,
    x: u32,
    end: End,
) -> io::Result<()> {
    let how = Status::from(end);
    match source.close(x, end) {
        Ok(()) => println!(rt; "{x} is now {how}"),
        Err(_) => println!(rt; "{x} is not open"),
    }
}

pub fn forget<S: StatusSource>(rt: &HostRuntime, source: &mut S, c: u32) -> io::Result<()> {
    let answer = source.forget(c);
    let Window { oldest, next } = source.window();
    match answer {
        Ok(()) => println!(rt; "forgot up to {c}: oldest {oldest}, next {next}"),
        Err(_) => println!(rt; "did not forget up to {c}: oldest {oldest}, next {next}"),
    }
}

pub fn status<S: StatusSource>(rt: &HostRuntime, source: &mut S, x: u32) -> io::Result<()> {
    let told = source.status(x);
    println!(rt; "{x}: {told}")
}

// The number and the status of a transaction that was committed, or the number of the refusal.
pub fn commit(rt: &HostRuntime, answer: Result<(u32, Status), Refusal>) -> io::Result<()> {
    match answer {
        Ok((x, status)) => println!(rt; "new source: {x} {status}"),
        Err(refusal) => {
            let number = u8::from(refusal);
            println!(rt; "new source: refused with {number}")
        }
    }
}
