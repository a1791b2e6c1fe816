// Transaction numbers: how far apart they are, which one comes first, and which one follows.
ghost use Rattle.std.specs.Prelude.{◌≡◌};
ghost use Rattle.xid.specs.Numbers.{distance as distance_of, precedes as is_before, successor as successor_of};

// The least number that a transaction can have.
pub const FIRST: u32 = 3;

// How far x lies from `from` on, round the end: (x - from) mod 2^32.
pub fn distance(from: u32, x: u32) -> u32
    ensures { result ≡ distance_of from x }
{
    x.wrapping_sub(from)
}

// Whether a comes before b: (a - b) mod 2^32 is at least 2^31.
pub fn precedes(a: u32, b: u32) -> bool
    ensures { result ≡ is_before a b }
{
    distance(b, a) >= 2_147_483_648
}

// The number after n.
pub fn successor(n: u32) -> u32
    ensures { result ≡ successor_of n }
{
    if n == u32::MAX { FIRST } else { n + 1 }
}
