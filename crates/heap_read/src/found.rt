// What a reading finds.
use page::Address;

// A version: where it stands, and its row, as part of the page.
#[derive(Clone, Copy, PartialEq, Eq, Debug)]
pub struct Found<'a> {
    pub address: Address,
    pub row: &'a [u8],
}
