// The rules of a lawful page, by name. specs/Rules.antt says what each asks.
use std::fmt;

// Rules of the page header, in the order in which they are asked.
#[derive(Clone, Copy, PartialEq, Eq, Debug)]
pub enum HeaderRule {
    SpecialAtEnd,
    LayoutVersion,
    NoFlags,
    LowerPastHeader,
    LowerByUpper,
    UpperInPage,
    WholePointers,
    UpperAligned,
    PointerLimit,
}

impl fmt::Display for HeaderRule {
    fn fmt<W: fmt::Write>(&self, f: &mut fmt::Formatter<W>) -> fmt::Result {
        f.write_str(match self {
            HeaderRule::SpecialAtEnd => "pd_special is 8192",
            HeaderRule::LayoutVersion => "pd_pagesize_version is 0x2004",
            HeaderRule::NoFlags => "pd_flags is 0",
            HeaderRule::LowerPastHeader => "pd_lower is at least 24",
            HeaderRule::LowerByUpper => "pd_lower is at most pd_upper",
            HeaderRule::UpperInPage => "pd_upper is at most 8192",
            HeaderRule::WholePointers => "pd_lower - 24 is a multiple of 4",
            HeaderRule::UpperAligned => "pd_upper is a multiple of 8",
            HeaderRule::PointerLimit => "at most 291 line pointers",
        })
    }
}

// Rules of one line pointer by itself: which of them are asked depends on its state.
#[derive(Clone, Copy, PartialEq, Eq, Debug)]
pub enum PointerRule {
    UnusedIsZero,
    DeadIsZero,
    RedirectHasNoLength,
    OffsetAligned,
    AboveUpper,
    EndsInPage,
    HoldsKind,
    KnownKind,
    RowLength,
}

impl fmt::Display for PointerRule {
    fn fmt<W: fmt::Write>(&self, f: &mut fmt::Formatter<W>) -> fmt::Result {
        f.write_str(match self {
            PointerRule::UnusedIsZero => "an unused pointer has offset and length 0",
            PointerRule::DeadIsZero => "a dead pointer has offset and length 0",
            PointerRule::RedirectHasNoLength => "a redirect has length 0",
            PointerRule::OffsetAligned => "a version starts at a multiple of 8",
            PointerRule::AboveUpper => "a version lies at or above pd_upper",
            PointerRule::EndsInPage => "a version ends by byte 8192",
            PointerRule::HoldsKind => "a version holds its header and a kind byte",
            PointerRule::KnownKind => "the kind stands in the table of kinds",
            PointerRule::RowLength => "the length is 24 plus the row of its kind",
        })
    }
}

// Rules of the header of a version.
#[derive(Clone, Copy, PartialEq, Eq, Debug)]
pub enum VersionRule {
    HeaderLength,
    ZeroByte,
    OneAttribute,
    NamedBits,
    OneRemoverBit,
    CreatorIsNumber,
    RemoverIsNumber,
}

impl fmt::Display for VersionRule {
    fn fmt<W: fmt::Write>(&self, f: &mut fmt::Formatter<W>) -> fmt::Result {
        f.write_str(match self {
            VersionRule::HeaderLength => "hoff is 24",
            VersionRule::ZeroByte => "the byte after hoff is 0",
            VersionRule::OneAttribute => "the attribute count is 1",
            VersionRule::NamedBits => "only named bits are set",
            VersionRule::OneRemoverBit => "remover-committed and remover-invalid are not both set",
            VersionRule::CreatorIsNumber => "the creator is at least 3",
            VersionRule::RemoverIsNumber => "the remover is at least 3, or 0 with remover-invalid",
        })
    }
}

// Rules of a line pointer among the others of its page.
#[derive(Clone, Copy, PartialEq, Eq, Debug)]
pub enum PageRule {
    NoOverlap,
    RedirectTarget,
    NamedOnce,
}

impl fmt::Display for PageRule {
    fn fmt<W: fmt::Write>(&self, f: &mut fmt::Formatter<W>) -> fmt::Result {
        f.write_str(match self {
            PageRule::NoOverlap => "no two versions overlap",
            PageRule::RedirectTarget => "a redirect leads to a heap-only version",
            PageRule::NamedOnce => "a heap-only version is named at most once",
        })
    }
}

// A broken rule and its place: the header, or a line pointer by its number.
#[derive(Clone, Copy, PartialEq, Eq, Debug)]
pub enum Broken {
    InHeader(HeaderRule),
    AtPointer(u16, PointerRule),
    InVersion(u16, VersionRule),
    Among(u16, PageRule),
}

impl fmt::Display for Broken {
    fn fmt<W: fmt::Write>(&self, f: &mut fmt::Formatter<W>) -> fmt::Result {
        match self {
            Broken::InHeader(rule) => write!(f, "in the header: broken rule: {rule}"),
            Broken::AtPointer(number, rule) => write!(
                f,
                "at pointer {number}: broken rule: {rule}"
            ),
            Broken::InVersion(number, rule) => write!(
                f,
                "at pointer {number}: broken rule: {rule}"
            ),
            Broken::Among(number, rule) => write!(f, "at pointer {number}: broken rule: {rule}"),
        }
    }
}
