// What a bridge keeps of each block so that it can be undone, and the changes of a keeper's slots that a block and its undoing make.
// Nothing here allocates.
#![tactic(auto)]

pub mod changes;
pub mod mark;
pub mod marks;
