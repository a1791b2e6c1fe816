// Theorems about the definitions that the contracts use. Each function's contract is its theorem.
ghost use Rattle.snapshot.specs.Laws.{NearestIsLeast, HorizonIsLeast};

// The nearest number has the least distance of all, and is one of them.
pub fn nearest_is_least()
    ensures { NearestIsLeast }
{}

// So has the horizon, of the active numbers, the xmins and the next number.
pub fn horizon_is_least()
    ensures { HorizonIsLeast }
{}
