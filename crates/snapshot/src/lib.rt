// Active transactions, snapshots and the horizon.
//
// Up to 64 open numbers are listed in order of beginning, and there are 16 places for snapshots, from 0. A snapshot
// says which transactions were running when it was taken; the horizon is the oldest number that anybody may still ask
// about. The calls of an archive are made of these operations.
//
// Proved here: what each operation answers and leaves, by equality; what holds of every snapshot that is taken of
// a source; and that the horizon is the least of the numbers it is taken from (`laws`).
// Left to others: that the list has exactly the open numbers of the source, which the calls above keep.

#![tactic(auto)]

pub mod active;
pub mod horizons;
pub mod laws;
mod lists;
pub mod places;
pub mod snapshots;
