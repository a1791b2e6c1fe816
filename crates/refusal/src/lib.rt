// The refusals of the archive, by name and number.
//
// Each check that a call makes has a number; the first that fails is the call's refusal. The numbers stand in one
// definition, `refusal_number`, and every promise about a refusal is made through it. Which call makes which checks is the
// matter of the crates above.

#![tactic(auto)]

ghost use Rattle.std.specs.Prelude.{◌≡◌};
ghost use Rattle.refusal.specs.Numbers.{refusal_number, NumbersDiffer};

#[derive(Clone, Copy, PartialEq, Eq, Debug)]
pub enum Refusal {
    // a memory is not of its stated size
    WrongSize = 1,
    // the block is not below the number of pages
    NoSuchBlock = 2,
    // a page that is looked at is not lawful
    UnlawfulPage = 3,
    // the transaction is not active, or not open in the source
    NotActive = 4,
    // no snapshot stands at the place
    PlaceNotTaken = 5,
    // the row does not fit its kind
    RowDoesNotFit = 6,
    // the pointer is not normal, or no root
    WrongPointer = 7,
    // an unmarked creator or remover lies outside the source's window
    OutsideWindow = 8,
    // the version's creator is neither committed nor frozen, nor the caller
    CreatorNotCommitted = 9,
    // the version's remover is still open
    RemoverPending = 10,
    // the version's remover has committed
    RemoverCommitted = 11,
    // no page takes the row
    NoRoom = 12,
    // each place has a snapshot
    NoPlaceFree = 13,
    // 64 transactions are active
    TooManyActive = 14,
    // the source is full
    SourceFull = 15,
    // the cutoff lies outside the window or past the horizon; or a new source's oldest number is below 3
    NumberOutOfRange = 16,
    // a page or the source still needs a number that was to be forgotten
    StillNeeded = 17,
    // an order is incomplete, or it or its row is of no known kind
    BadOrder = 18,
}

// The number of a refusal.
impl From<Refusal> for u8 {
    ghost from_gives = { λ refusal number. number ≡ refusal_number refusal };

    fn from(refusal: Refusal) -> u8
        ensures { result ≡ refusal_number refusal }
    {
        refusal as u8
    }
}

// No two refusals have one number.
pub fn numbers_differ()
    ensures { NumbersDiffer }
{}
