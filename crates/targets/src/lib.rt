// The targets of a block, placed in a forest. Nothing here allocates.
#![tactic(auto)]

mod checks;
pub mod placed;
pub mod spend;
#[cfg(test)]
mod tests;
