// The commit log: statuses as two-bit codes, in memory that is lent to it.
//
// The memory has 16 to 16,384 bytes, a power of two. The code of the number x lies in byte (x div 4) mod length, from
// bit 2 * (x mod 4), so that a slot is used again, lap after lap, for every number that lies 4 * length further on.
//
// Proved here: `TwoBitPages` is a status source (xid::source). Its meaning is read from the bytes, each call leaves
// the bytes that its contract names and no others, and opening a number clears what the lap before left in its slot.
// Left to others: what a caller does with the memory once the pages are gone.

#![tactic(auto)]

mod codes;
pub mod pages;
