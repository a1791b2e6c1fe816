// The edges of the rules, as one table: where the order of the numbers, a snapshot and the room of a page turn over.

#![tactic(auto)]

ghost use Rattle.edges.specs.Edges.{Edges};

// At each edge the definitions say what the rules say.
pub fn edges_are_right()
    ensures { Edges }
{}
