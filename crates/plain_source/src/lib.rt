// A status source for tests, unlike the others on purpose.
//
// It keeps plain statuses and no codes, at places counted from the oldest number on, so that forgetting moves them all
// down. And it fills early: it turns a number down once the next one lies 8 or more from the oldest, far below what a
// source may hold. So whatever is proved over every source cannot rest on how the two-bit pages work, nor on how much
// they hold.
//
// Proved here: `PlainSource` keeps the contracts and the laws of xid::source.

#![tactic(auto)]

pub mod plain;
