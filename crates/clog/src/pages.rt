// Two-bit pages: what they hold, and what they keep.
ghost use Rattle.clog.specs.Sound.{Sound};

use refusal::Refusal;
use xid::window::Window;

// The memory, handed back as it was, and why it does not serve.
#[derive(Drop)]
pub struct Refused<'a> {
    pub memory: &'a mut [u8],
    pub why: Refusal,
}

// The numbers of a window, with a code each.
#[derive(Drop)]
pub struct TwoBitPages<'a> {
    memory: &'a mut [u8],
    window: Window,
    ghost sound: { Sound memory.now window.oldest window.next },
}

mod calls;
