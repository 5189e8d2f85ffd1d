// The claims of a block's proof, worked out row by row from the slots up. Nothing here allocates.
#![tactic(auto)]

mod above;
pub mod after;
pub mod climb;
pub mod hashes;
pub mod item;
pub mod needed;
mod no_values;
mod rise;
mod step;
#[cfg(test)]
mod tests;
