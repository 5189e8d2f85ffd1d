// The theory of the forest is in proofs/. The functions here do nothing: each one's contract is a law of the definitions, and the
// crate would not check without its proof.
#![tactic(auto)]

ghost use Rattle.std.specs.Prelude.{◌^◌};
ghost use Rattle.laws.specs.Laws.{RowsLeast, OnePosition, InsideExactly, LivePositions, PositionsApart, InputsOverCoins, RootValues, PathsFresh, NeededFew};

// R is the least number with count <= 2^R.
pub fn rows_least()
    ensures { RowsLeast (2 ^ 32) }
{}

// A place has one position, and a position one place.
pub fn one_position()
    ensures { OnePosition (2 ^ 32) }
{}

// A place is in the forest exactly if it is below n / 2 ^ row.
pub fn inside_exactly()
    ensures { InsideExactly (2 ^ 32) }
{}

// A live slot has one position in the forest, and distinct slots have distinct ones.
pub fn live_positions()
    ensures { LivePositions (2 ^ 32) }
{}

// No coin's position is above another coin's.
pub fn positions_apart()
    ensures { PositionsApart (2 ^ 32) }
{}

// A position has an own input exactly where a coin lies at it or beneath it.
pub fn inputs_over_coins()
    ensures { InputsOverCoins (2 ^ 32) }
{}

// The value at a root position is the value over the tree.
pub fn root_values()
    ensures { RootValues (2 ^ 32) }
{}

// The path of a live slot is the fresh proof for its position alone.
pub fn paths_fresh()
    ensures { PathsFresh (2 ^ 32) }
{}

// A proof needs at most 31 hashes for each target.
pub fn needed_few()
    ensures { NeededFew 31 }
{}
