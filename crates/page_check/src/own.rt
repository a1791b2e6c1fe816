// The rules of the header, and of each line pointer and its version by themselves.
ghost use Rattle.std.specs.Prelude.{◌≡◌, ◌≤◌};
ghost use Rattle.page_check.specs.All.{first_of};
ghost use Rattle.page_check.specs.Rules.{header_holds, header_rules, only_named_bits, pointer_holds, pointer_rules, version_holds, version_rules, row_break};
ghost use Rattle.page.specs.LinePointers.{line_pointer_at};
ghost use Rattle.page.specs.declared.line_pointers.State.TheVariants.{Normal};
ghost use Rattle.page_check.specs.Lawful.{own_break, own_broken};

use crate::rules::{Broken, HeaderRule, PointerRule, VersionRule};
use page::{
    Kind, LinePointer, Mark, Page, PageHeader, State, VersionHeader, body_len, line_pointer_at,
    pointer_count, version_at,
};

// The table of kinds and the page are two parameters: as a struct they would be longer in each clause.

// One test for each rule, in the order of the rules: a table of tests would say the same twice.
pub(crate) fn header_break(header: &PageHeader) -> Option<HeaderRule>
    ensures { result ≡ first_of (header_holds header.now) header_rules }
{
    if header.special != 8192 {
        return Some(HeaderRule::SpecialAtEnd);
    }
    if header.version != 0x2004 {
        return Some(HeaderRule::LayoutVersion);
    }
    if header.flags != 0 {
        return Some(HeaderRule::NoFlags);
    }
    if header.lower < 24 {
        return Some(HeaderRule::LowerPastHeader);
    }
    if header.lower > header.upper {
        return Some(HeaderRule::LowerByUpper);
    }
    if header.upper > 8192 {
        return Some(HeaderRule::UpperInPage);
    }
    if (header.lower - 24) % 4 != 0 {
        return Some(HeaderRule::WholePointers);
    }
    if header.upper % 8 != 0 {
        return Some(HeaderRule::UpperAligned);
    }
    if header.pointer_count() > 291 {
        return Some(HeaderRule::PointerLimit);
    }
    None
}

// Only named bits are set in the two words: the attribute count takes the low 11 bits of infomask2.
fn only_named_bits(version: &VersionHeader) -> bool
    ensures { result ≡ only_named_bits version.now }
{
    version.infomask % 0x0100 == 0
        && version.infomask / 0x1000 % 2 == 0
        && version.infomask < 0x4000
        && version.infomask2 / 0x0800 % 8 == 0
}

fn version_break(version: &VersionHeader) -> Option<VersionRule>
    ensures { result ≡ first_of (version_holds version.now) (version_rules Normal) }
{
    if version.hoff != 24 {
        return Some(VersionRule::HeaderLength);
    }
    if version.zero != 0 {
        return Some(VersionRule::ZeroByte);
    }
    if version.infomask2 % 0x0800 != 1 {
        return Some(VersionRule::OneAttribute);
    }
    if !only_named_bits(version) {
        return Some(VersionRule::NamedBits);
    }
    if version.has(Mark::RemoverCommitted) && version.has(Mark::RemoverInvalid) {
        return Some(VersionRule::OneRemoverBit);
    }
    if version.creator < 3 {
        return Some(VersionRule::CreatorIsNumber);
    }
    if version.remover < 3 && (version.remover != 0 || !version.has(Mark::RemoverInvalid)) {
        return Some(VersionRule::RemoverIsNumber);
    }
    None
}

fn row_break(kinds: &[Kind], code: u8, len: u16) -> Option<PointerRule>
    requires { 25 ≤ len }
    ensures { result ≡ row_break kinds.now code len }
{
    match body_len(kinds, code) {
        None => Some(PointerRule::KnownKind),
        Some(body) if body != len - 25 => Some(PointerRule::RowLength),
        Some(_) => None,
    }
}

// The rules of a normal pointer: where its version lies, and how long it is.
fn normal_break(kinds: &[Kind], page: &Page, at: LinePointer) -> Option<PointerRule>
    ensures { result ≡ first_of (pointer_holds kinds.now page.now at) (pointer_rules Normal) }
{
    if at.offset % 8 != 0 {
        return Some(PointerRule::OffsetAligned);
    }
    if at.offset < PageHeader::read(page).upper {
        return Some(PointerRule::AboveUpper);
    }
    if at.offset as usize + at.len as usize > 8192 {
        return Some(PointerRule::EndsInPage);
    }
    if at.len < 25 {
        return Some(PointerRule::HoldsKind);
    }
    row_break(kinds, page[at.offset as usize + 24], at.len)
}

fn pointer_break(kinds: &[Kind], page: &Page, at: LinePointer) -> Option<PointerRule>
    ensures { result ≡ first_of (pointer_holds kinds.now page.now at) (pointer_rules at.state) }
{
    let zero = at.offset == 0 && at.len == 0;
    match at.state {
        State::Unused if !zero => Some(PointerRule::UnusedIsZero),
        State::Dead if !zero => Some(PointerRule::DeadIsZero),
        State::Redirect if at.len != 0 => Some(PointerRule::RedirectHasNoLength),
        State::Normal => normal_break(kinds, page, at),
        _ => None,
    }
}

// The first rule that a line pointer or its version breaks by itself.
fn own_break(kinds: &[Kind], page: &Page, number: u16) -> Option<Broken>
    ensures { result ≡ own_break kinds.now page.now number (line_pointer_at page.now number) }
{
    let at = line_pointer_at(page, number);
    if let Some(rule) = pointer_break(kinds, page, at) {
        return Some(Broken::AtPointer(number, rule));
    }
    if at.state != State::Normal {
        return None;
    }
    let version = version_at(page, at.offset)?;
    version_break(&version).map(|rule| Broken::InVersion(number, rule))
}

// The first line pointer that breaks a rule by itself.
pub(crate) fn first_own_break(kinds: &[Kind], page: &Page) -> Option<Broken>
    ensures { result ≡ own_broken kinds.now page.now }
{
    // Not `find_map`: no lemma says what it finds in a range.
    for number in 1..pointer_count(page) + 1 {
        if let Some(broken) = own_break(kinds, page, number) {
            return Some(broken);
        }
    }
    None
}
