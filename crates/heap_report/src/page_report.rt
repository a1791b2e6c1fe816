// One page as text: its header, its line pointers, their versions, and whether it is lawful.
ghost use Rattle.std.specs.Prelude.{◌≡◌, count_by};
ghost use Rattle.std.specs.List.{range_with_len};
ghost use Rattle.page.specs.Headers.{count_of};
ghost use Rattle.page.specs.LinePointers.{state_code};
ghost use Rattle.heap_report.specs.Images.{in_state, count_in_state};

use page::{
    Address, LinePointer, Mark, Page, PageHeader, RowKind, State, VersionHeader, line_pointer_at,
    pointer_numbers, row_at, version_at,
};
use page_check::Broken;
use std::fmt;

fn is_in_state(page: &Page, state: State, number: u16) -> bool
    ensures { result ≡ in_state page.now (state_code state) number }
{
    line_pointer_at(page, number).state == state
}

fn numbers_in_state(page: &Page, state: State) -> usize
    ensures { result ≡ count_by (λ n. in_state page.now (state_code state) n) (range_with_len 1 (count_of page.now)) }
{
    pointer_numbers(page)
        .filter(|number| is_in_state(page, state, *number))
        .count()
}

// How many line pointers of a page are in a state.
#[tactic(auto, using(page_check::proofs::Ranges::count_list, page_check::proofs::Ranges::count_small))]
pub fn count_in_state(page: &Page, state: State) -> u16
    ensures { result ≡ count_in_state page.now state }
{
    numbers_in_state(page, state) as u16
}

// A page of a block, with the rule that it breaks first.
#[derive(Drop)]
pub struct PageReport<'a> {
    pub page: &'a Page,
    pub block: u32,
    pub broken: Option<Broken>,
}

impl fmt::Display for PageReport<'_> {
    fn fmt<W: fmt::Write>(&self, f: &mut fmt::Formatter<W>) -> fmt::Result {
        let block = self.block;
        writeln!(f, "page {block}")?;
        let header = PageHeader::read(self.page);
        write_header(&header, f)?;
        for number in pointer_numbers(self.page) {
            write_pointer(self.page, number, f)?;
        }
        write_verdict(self.broken, f)
    }
}

fn write_header<W: fmt::Write>(header: &PageHeader, f: &mut fmt::Formatter<W>) -> fmt::Result {
    let PageHeader {
        lsn,
        checksum,
        flags,
        lower,
        upper,
        special,
        version,
        prune_xid,
    } = *header;
    write!(
        f,
        "  header: lsn 0x{lsn:016x}, checksum 0x{checksum:04x}, flags 0x{flags:04x}, "
    )?;
    writeln!(
        f,
        "lower {lower}, upper {upper}, special {special}, version 0x{version:04x}, prune xid {prune_xid}"
    )
}

fn write_pointer<W: fmt::Write>(
    page: &Page,
    number: u16,
    f: &mut fmt::Formatter<W>,
) -> fmt::Result {
    let at = line_pointer_at(page, number);
    let LinePointer { offset, state, len } = at;
    writeln!(
        f,
        "  pointer {number}: {state}, offset {offset}, length {len}"
    )?;
    if state == State::Normal {
        write_version(page, at, f)
    } else {
        Ok(())
    }
}

fn write_version<W: fmt::Write>(
    page: &Page,
    at: LinePointer,
    f: &mut fmt::Formatter<W>,
) -> fmt::Result {
    let Some(version) = version_at(page, at.offset) else {
        return writeln!(f, "    version outside the page");
    };
    write_version_header(&version, f)?;
    match row_at(page, at.offset, at.len) {
        Some([code, body @ ..]) => write_row(*code, body, f),
        _ => writeln!(f, "no row"),
    }
}

fn write_version_header<W: fmt::Write>(
    version: &VersionHeader,
    f: &mut fmt::Formatter<W>,
) -> fmt::Result {
    let VersionHeader {
        creator,
        remover,
        ctid: Address { block, pointer },
        infomask2,
        infomask,
        ..
    } = *version;
    write!(
        f,
        "    creator {creator}, remover {remover}, infomask2 0x{infomask2:04x}, infomask 0x{infomask:04x} ["
    )?;
    write_marks(version, f)?;
    write!(f, "], ctid ({block},{pointer}), ")
}

// The names of the marks that are set, with a blank between two. Both marks of the creator mean that it is frozen.
fn write_marks<W: fmt::Write>(version: &VersionHeader, f: &mut fmt::Formatter<W>) -> fmt::Result {
    // By its two marks, which are named one by one below.
    let frozen = version.has(Mark::CreatorCommitted) && version.has(Mark::CreatorInvalid);
    let mut gap = "";
    if frozen {
        write!(f, "creator-frozen")?;
        gap = " ";
    }
    for mark in [
        Mark::CreatorCommitted,
        Mark::CreatorInvalid,
        Mark::RemoverCommitted,
        Mark::RemoverInvalid,
        Mark::Updated,
        Mark::HotUpdated,
        Mark::HeapOnly,
    ] {
        let of_creator = matches!(mark, Mark::CreatorCommitted | Mark::CreatorInvalid);
        if version.has(mark) && !(frozen && of_creator) {
            write!(f, "{gap}{mark}")?;
            gap = " ";
        }
    }
    Ok(())
}

fn write_row<W: fmt::Write>(code: u8, body: &[u8], f: &mut fmt::Formatter<W>) -> fmt::Result {
    match RowKind::try_from(code) {
        Ok(kind) => write!(f, "kind {code} {kind}, body ")?,
        Err(_) => write!(f, "kind {code} unknown, body ")?,
    }
    for byte in body {
        write!(f, "{byte:02x}")?;
    }
    writeln!(f)
}

fn write_verdict<W: fmt::Write>(broken: Option<Broken>, f: &mut fmt::Formatter<W>) -> fmt::Result {
    match broken {
        None => writeln!(f, "  lawful"),
        Some(broken) => writeln!(f, "  unlawful {broken}"),
    }
}
