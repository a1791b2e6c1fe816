// Runs of the archive's calls, the ledger, and the snapshot claim over them: begun, and not promised yet.
//
// specs/ has the definitions. proofs/ has the invariant, that each of the twelve changing calls keeps it, and what next and fetch
// show while it holds. The claim (`SnapshotClaim`) and the two laws beside it are not put together from these, and no function's
// contract names them; `none` stands here only so that the crate has a function.

#![tactic(auto)]

ghost use Rattle.std.specs.Prelude.{◌≡◌};
ghost use Rattle.history.specs.Claim.{SnapshotClaim};
ghost use Rattle.history.specs.Laws.{ChangesGoOn, PagesStayLawful};

pub fn none() -> u8
    ensures { result ≡ 0 }
{
    0
}
