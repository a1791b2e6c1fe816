// The status of a transaction, and how one ends.
ghost use Rattle.std.specs.Prelude.{◌≡◌, ◌<◌};
ghost use Rattle.xid.specs.Statuses.{code_of, status_of, end_status, is_open};

use std::fmt;

// What a source says of a number. Unknown is what it says of a number outside its window.
#[derive(Clone, Copy, PartialEq, Eq, Debug)]
pub enum Status {
    Open,
    Committed,
    Aborted,
    Unknown,
}

// The two ends of a transaction.
#[derive(Clone, Copy, PartialEq, Eq, Debug)]
pub enum End {
    Commit,
    Abort,
}

impl Status {
    pub fn is_open(self) -> bool
        ensures { result ≡ is_open self }
    {
        matches!(self, Status::Open)
    }
}

// The two-bit code of a status.
impl From<Status> for u8 {
    ghost from_gives = { λ status code. code ≡ code_of status };

    fn from(status: Status) -> u8
        ensures value { result ≡ code_of status }
        ensures small { result < 4 }
    {
        match status {
            Status::Open => 0,
            Status::Committed => 1,
            Status::Aborted => 2,
            Status::Unknown => 3,
        }
    }
}

// The status that has a code; every other value stands for none.
impl From<u8> for Status {
    ghost from_gives = { λ code status. status ≡ status_of code };

    fn from(code: u8) -> Status
        ensures { result ≡ status_of code }
    {
        match code {
            0 => Status::Open,
            1 => Status::Committed,
            2 => Status::Aborted,
            _ => Status::Unknown,
        }
    }
}

// The status of a transaction that ended so.
impl From<End> for Status {
    ghost from_gives = { λ end status. status ≡ end_status end };

    fn from(end: End) -> Status
        ensures { result ≡ end_status end }
    {
        match end {
            End::Commit => Status::Committed,
            End::Abort => Status::Aborted,
        }
    }
}

impl fmt::Display for Status {
    fn fmt<W: fmt::Write>(&self, f: &mut fmt::Formatter<W>) -> fmt::Result {
        f.write_str(match self {
            Status::Open => "open",
            Status::Committed => "committed",
            Status::Aborted => "aborted",
            Status::Unknown => "unknown",
        })
    }
}
