// What it is for a page to be lawful, fact by fact: the seam between the page check, which is a test, and the laws of the
// operations on pages, which use and owe its parts one by one.

#![tactic(auto)]

ghost use Rattle.page_laws.specs.Keeps.{LawfulMeans};

// A page is lawful exactly where it keeps the rules at every line pointer and every pair of them.
pub fn lawful_means()
    ensures { LawfulMeans }
{}
