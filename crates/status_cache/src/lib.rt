// A cache of ended transactions over any status source.
//
// It has 64 slots, the number x in slot x mod 64, for committed and aborted numbers only: those keep their status for
// as long as they are in the window, while an open number may end at any time.
//
// Proved here, once for every source: the cache is a status source that means the same as the source below it. A slot
// never tells another status than that source, also after a forget, and after the numbers have come round.
// Left to others: the source below. How full the cache is, no contract says.

#![tactic(auto)]

pub mod cache;
mod slots;
