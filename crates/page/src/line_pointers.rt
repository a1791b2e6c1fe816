// Line pointers: 32 bits each, right after the page header, counted from 1.
ghost use Rattle.std.specs.Prelude.{◌≡◌};
ghost use Rattle.page.specs.LinePointers.{state_code, state_of, word_at, line_pointer_of, line_pointer_at, pointer_of, pointer_at, word_of};

use crate::bytes::read32;
use crate::headers::{PAGE_SIZE, Page};
use std::fmt;

#[derive(Clone, Copy, PartialEq, Eq, Debug)]
pub enum State {
    Unused = 0,
    Normal = 1,
    Redirect = 2,
    Dead = 3,
}

impl From<State> for u8 {
    ghost from_gives = { λ state code. code ≡ state_code state };

    fn from(state: State) -> u8 {
        state as u8
    }
}

// The state of a code of two bits; what is above them is not looked at.
impl From<u32> for State {
    ghost from_gives = { λ code state. state ≡ state_of code };

    fn from(code: u32) -> State {
        match code % 4 {
            0 => State::Unused,
            1 => State::Normal,
            2 => State::Redirect,
            _ => State::Dead,
        }
    }
}

impl fmt::Display for State {
    fn fmt<W: fmt::Write>(&self, f: &mut fmt::Formatter<W>) -> fmt::Result {
        f.write_str(match self {
            State::Unused => "unused",
            State::Normal => "normal",
            State::Redirect => "redirect",
            State::Dead => "dead",
        })
    }
}

// A line pointer as its bits stand, lawful or not.
#[derive(Clone, Copy, PartialEq, Eq, Debug)]
pub struct LinePointer {
    pub offset: u16,
    pub state: State,
    pub len: u16,
}

// What a line pointer means. The number of a redirect is that of another pointer of the page.
#[derive(Clone, Copy, PartialEq, Eq, Debug)]
pub enum Pointer {
    Unused,
    Normal { offset: u16, len: u16 },
    Redirect(u16),
    Dead,
}

// The bits of a line pointer with this meaning; offset, length and number have 15 bits.
impl From<Pointer> for u32 {
    ghost from_gives = { λ pointer word. word ≡ word_of pointer };

    fn from(pointer: Pointer) -> u32 {
        match pointer {
            Pointer::Unused => 0,
            Pointer::Normal { offset, len } => offset as u32 % 0x8000
                + 0x8000
                + len as u32 % 0x8000 * 0x2_0000,
            Pointer::Redirect(number) => number as u32 % 0x8000 + 0x1_0000,
            Pointer::Dead => 0x1_8000,
        }
    }
}

impl From<u32> for LinePointer {
    ghost from_gives = { λ word pointer. pointer ≡ line_pointer_of word };

    fn from(word: u32) -> LinePointer {
        LinePointer {
            offset: (word % 0x8000) as u16,
            state: State::from(word / 0x8000),
            len: (word / 0x2_0000) as u16,
        }
    }
}

impl From<LinePointer> for Pointer {
    ghost from_gives = { λ at pointer. pointer ≡ pointer_of at };

    fn from(at: LinePointer) -> Pointer {
        match at.state {
            State::Unused => Pointer::Unused,
            State::Normal => Pointer::Normal {
                offset: at.offset,
                len: at.len,
            },
            State::Redirect => Pointer::Redirect(at.offset),
            State::Dead => Pointer::Dead,
        }
    }
}

// The 32 bits of a line pointer: zero past the end of the page.
#[tactic(auto, using(crate::proofs::PastEnd::get32_past))]
fn word_at(page: &Page, number: u16) -> u32
    ensures { result ≡ word_at page.now number }
{
    let at = 20 + 4 * number as usize;
    if at >= PAGE_SIZE {
        return 0;
    }
    read32(page, at)
}

// The line pointer of a number, as its bits stand. One past the end of the page is unused.
pub fn line_pointer_at(page: &Page, number: u16) -> LinePointer
    ensures { result ≡ line_pointer_at page.now number }
{
    word_at(page, number).into()
}

pub fn pointer_at(page: &Page, number: u16) -> Pointer
    ensures { result ≡ pointer_at page.now number }
{
    line_pointer_at(page, number).into()
}
