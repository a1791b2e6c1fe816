// Two-bit codes in bytes.
ghost use Rattle.std.specs.Prelude.{◌≡◌, ◌%◌};
ghost use Rattle.xid.specs.Statuses.{code_of, status_of};
ghost use Rattle.clog.specs.Codes.{code_in, with_code, code_at, put_code};

use xid::statuses::Status;

// The code of x in its byte.
fn code_in(byte: u8, x: u32) -> u8
    ensures { result ≡ code_in byte (x % 4) }
{
    (byte >> (2 * (x % 4))) & 3
}

// The byte with the status of x put into it.
fn with_code(byte: u8, x: u32, status: Status) -> u8
    ensures { result ≡ with_code byte (x % 4) (code_of status) }
{
    let code = u8::from(status);
    match x % 4 {
        0 => byte / 4 * 4 + code,
        1 => byte / 16 * 16 + code * 4 + byte % 4,
        2 => byte / 64 * 64 + code * 16 + byte % 16,
        _ => code * 64 + byte % 64,
    }
}

// The status in the slot of x. No memory reads as zeros. Where the byte lies is said here and in the next: as a function it would
// answer an option for the one memory that has no bytes.
pub fn read_slot(memory: &[u8], x: u32) -> Status
    ensures { result ≡ status_of (code_at memory.now x) }
{
    if memory.len() == 0 {
        return Status::from(0);
    }
    let at = (x / 4) as usize % memory.len();
    Status::from(code_in(memory[at], x))
}

// Puts a status into the slot of x.
pub fn write_slot(memory: &mut [u8], x: u32, status: Status)
    ensures { memory.new ≡ put_code memory.old x (code_of status) }
{
    if memory.len() == 0 {
        return;
    }
    let at = (x / 4) as usize % memory.len();
    let byte = with_code(memory[at], x, status);
    memory[at] = byte;
}
