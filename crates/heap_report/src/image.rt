// The size of a heap image.
ghost use Rattle.std.specs.Prelude.{◌≡◌};
ghost use Rattle.heap_report.specs.Images.{pages_in};

use std::fmt;

pub const MAX_PAGES: u64 = 64;

// Why a file is no heap image, with its size in bytes.
#[derive(Clone, Copy, PartialEq, Eq, Debug)]
pub enum SizeFault {
    Empty,
    BrokenPage(u64),
    TooManyPages(u64),
}

// How many pages a file of a size in bytes holds: a heap image has 1 to 64 whole pages.
pub fn pages_in(size: u64) -> Result<u64, SizeFault>
    ensures { result ≡ pages_in size }
{
    if size == 0 {
        return Err(SizeFault::Empty);
    }
    if size % 8192 != 0 {
        return Err(SizeFault::BrokenPage(size));
    }
    if size / 8192 > MAX_PAGES {
        return Err(SizeFault::TooManyPages(size));
    }
    Ok(size / 8192)
}

impl fmt::Display for SizeFault {
    fn fmt<W: fmt::Write>(&self, f: &mut fmt::Formatter<W>) -> fmt::Result {
        match *self {
            SizeFault::Empty => write!(f, "the file is empty (0 bytes)")?,
            SizeFault::BrokenPage(size) => {
                let over = size % 8192;
                write!(f, "{size} bytes are not whole pages ({over} over)")?
            }
            SizeFault::TooManyPages(size) => {
                let pages = size / 8192;
                write!(f, "{size} bytes are {pages} pages")?
            }
        }
        write!(f, "; a heap image has 1 to 64 whole pages of 8192 bytes")
    }
}
