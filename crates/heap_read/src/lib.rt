// Reading from pages: which versions a snapshot sees, how they hang together, and which comes next.
//
// Proved here, once for every status source: the fate of a creator and of a remover, what a snapshot sees, links and
// chains, the lowest visible version above an address over all pages, and the first visible version of a chain. Hint bits
// are asked first, else the source. Whether the pages are lawful and the numbers known is for the callers to check.
// That versions lie inside is asked of a page, and is not a type of its own: these functions are the interface for the calls,
// which have pages as plain bytes.

#![tactic(auto)]

pub mod fates;
pub mod found;
pub mod links;
pub mod next;
pub mod reading;
