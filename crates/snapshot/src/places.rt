// The places for snapshots.

use crate::snapshots::Snapshot;
use std::marker::Model;

// How many places there are.
pub const COUNT: usize = 16;

// A place has a snapshot, or it is free.
#[derive(Drop)]
pub struct Places {
    at: [Option<Snapshot>; COUNT],
}

// Callers see what stands at the places. That there are 16 they learn from each method.
impl Model for Places {
    ghost use Rattle.std.specs.Prelude.{◌≡◌, List, Option, length, map};
    ghost use Rattle.std.specs.Option.{option_map};
    ghost use Rattle.snapshot.specs.Snapshots.{SnapshotData, data_of};

    ghost Value = { List (Option SnapshotData) };

    ghost view = { λ p. map (option_map data_of) p.at };

    ghost invariant = { λ p. length p.at ≡ 16 };
}

mod methods;
