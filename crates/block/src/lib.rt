// Blocks as bytes: the checks on length and counts, the reader, and compose. Nothing here allocates.
#![tactic(auto)]

pub mod checks;
pub mod compose;
pub mod entry;
mod packed;
pub mod read;
