// The Utreexo forest: its records, and in specs/ every definition that the other crates are proved against. Read specs/ in the order
// of specs/Lib.antt.
#![tactic(auto)]

mod coin;
pub mod record;
#[cfg(test)]
mod tests;
pub mod types;
mod value;
mod words;

ghost use Rattle.std.specs.Prelude.{◌≡◌, true, false, ◌∷◌};
ghost use Rattle.utreexo.specs.Cases.{every, worked_cases};

// The definitions give what the worked cases expect.
pub fn worked_cases()
    ensures { every worked_cases ≡ true }
{}
