// A list of up to 64 transaction numbers.
ghost use Rattle.std.specs.Prelude.{◌≤◌};

// The first `len` of the items. There is no heap, and snapshots are copied, which an `ArrayVec` is not; nor could a struct with a
// model be copied, since the numbers do not give back the unused items, which a
// derived `==` would compare.
#[derive(Clone, Copy)]
pub struct XidList {
    items: [u32; 64],
    len: usize,
    ghost fits: { len ≤ 64 },
}

mod methods;
