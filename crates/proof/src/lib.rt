// The checks of a block against a count and roots, in ascending number, each over the whole block before the next. Nothing here
// allocates.
#![tactic(auto)]

pub mod accepted;
pub mod judge;
mod layers;
pub mod readable;
mod records;
#[cfg(test)]
mod tests;
