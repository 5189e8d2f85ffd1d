// The bridge: the whole forest, over any keeper and any compression.
#![tactic(auto)]

mod changes;
mod fresh;
mod judge;
mod questions;
mod runs;
#[cfg(test)]
mod tests;
mod written;

ghost use Rattle.std.specs.Prelude.{◌≡◌, true};
ghost use Rattle.undo.specs.Marks.{marks_of, undoable};

use compression::Compression;
use keeper::Keeper;
use std::marker::PhantomData;
use undo::marks::Marks;

// A bridge has its keeper by value, and its 64 marks in a plain table beside it. The marks can all be undone, one after the other.
#[derive(Drop)]
pub struct Bridge<C: Compression, K: Keeper<C>> {
    keeper: K,
    marks: Marks,
    compression: PhantomData<C>,
    ghost undoable: { undoable (marks_of marks) (K.slots keeper) ≡ true },
}
