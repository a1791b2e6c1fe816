// The kinds of rows. A row is a byte of kind and then its body, whose length the kind fixes.
ghost use Rattle.std.specs.Prelude.{◌≡◌};
ghost use Rattle.page.specs.Kinds.{row_kind_of, the_kinds, body_len, row_fits};

use std::fmt;

// A kind in a table of kinds. It has a code and is no `RowKind`: a page may hold any byte, and a table kinds of its own.
#[derive(Clone, Copy, PartialEq, Eq, Debug)]
pub struct Kind {
    pub code: u8,
    pub body: u16,
}

// The kinds of rows of the archive, by their codes.
#[derive(Clone, Copy, PartialEq, Eq, Debug)]
pub enum RowKind {
    Temperature = 1,
    Voltage = 2,
    Counter = 3,
    Contact = 4,
    Remark = 5,
    Frame = 6,
}

// A code of no kind of the archive.
#[derive(Clone, Copy, PartialEq, Eq, Debug)]
pub struct UnknownKind(pub u8);

impl TryFrom<u8> for RowKind {
    type Error = UnknownKind;

    ghost try_from_gives = { λ code r. r ≡ row_kind_of code };

    fn try_from(code: u8) -> Result<RowKind, UnknownKind> {
        match code {
            1 => Ok(RowKind::Temperature),
            2 => Ok(RowKind::Voltage),
            3 => Ok(RowKind::Counter),
            4 => Ok(RowKind::Contact),
            5 => Ok(RowKind::Remark),
            6 => Ok(RowKind::Frame),
            _ => Err(UnknownKind(code)),
        }
    }
}

impl fmt::Display for RowKind {
    fn fmt<W: fmt::Write>(&self, f: &mut fmt::Formatter<W>) -> fmt::Result {
        f.write_str(match self {
            RowKind::Temperature => "temperature",
            RowKind::Voltage => "voltage",
            RowKind::Counter => "counter",
            RowKind::Contact => "contact",
            RowKind::Remark => "remark",
            RowKind::Frame => "frame",
        })
    }
}

const KINDS: [Kind; 6] = [
    Kind {
        code: RowKind::Temperature as u8,
        body: 8,
    },
    Kind {
        code: RowKind::Voltage as u8,
        body: 12,
    },
    Kind {
        code: RowKind::Counter as u8,
        body: 8,
    },
    Kind {
        code: RowKind::Contact as u8,
        body: 20,
    },
    Kind {
        code: RowKind::Remark as u8,
        body: 120,
    },
    Kind {
        code: RowKind::Frame as u8,
        body: 1000,
    },
];

// The table of kinds that the archive uses.
pub fn standard_kinds() -> &'static [Kind; 6]
    ensures { result.now ≡ the_kinds }
{
    &KINDS
}

// How many bytes the body of a row has, where its kind stands in the table.
pub fn body_len(kinds: &[Kind], code: u8) -> Option<u16>
    ensures { result ≡ body_len kinds.now code }
{
    kinds
        .iter()
        .find(|kind| kind.code == code)
        .map(|kind| kind.body)
}

// Whether a row begins with a known kind and has the length of that kind.
pub fn row_fits(kinds: &[Kind], row: &[u8]) -> bool
    ensures { result ≡ row_fits kinds.now row.now }
{
    let [code, body @ ..] = row else {
        return false;
    };
    body_len(kinds, *code).is_some_and(|len| body.len() == len as usize)
}
