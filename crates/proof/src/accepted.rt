// What the checks of a block against a count and roots leave.
use targets::placed::Targets;
use utreexo::types::Value;

// The targets of a block that was accepted, in their places, and the roots once they are spent.
#[derive(Drop)]
pub struct Accepted {
    pub targets: Targets,
    pub roots: [Option<Value>; 32],
}
