// The mark of one block.
ghost use Rattle.std.specs.Prelude.{◌≡◌, take, slice_get};
ghost use Rattle.utreexo.specs.Collection.{no_coin};
ghost use Rattle.undo.specs.Marks.{listed};

use std::array;
use utreexo::types::{Coin, Slot};

// A slot that a block blanked, with its coin.
#[derive(Clone, Copy, PartialEq, Eq, Debug)]
pub struct Blanked {
    pub slot: Slot,
    pub coin: Coin,
}

// What stands in the unused places of a bounded list. By hand: a slot has no default of its own.
impl Default for Blanked {
    fn default() -> Blanked
        ensures { result ≡ record { slot = record { number = 0 }; coin = no_coin } }
    {
        Blanked {
            slot: Slot { number: 0 },
            coin: Coin::default(),
        }
    }
}

// The count before a block, and the slots that it blanked. Marks are copied by the history, so they stand in an array, absent where
// the block has fewer: an `ArrayVec` is not `Copy`.
#[derive(Clone, Copy)]
pub struct Mark {
    pub(crate) count: u32,
    pub(crate) blanked: [Option<Blanked>; 32],
}

// What stands at a place of the array. Tried: the call in the closure below, for which the check makes no proof yet (`Mark::new`).
fn entry_at(blanked: &[Blanked], place: usize) -> Option<Blanked>
    ensures { result ≡ slice_get blanked.now place }
{
    blanked.get(place).copied()
}

impl Mark {
    // A mark has room for 32 slots, as many as a block has targets.
    pub fn new(count: u32, blanked: &[Blanked]) -> Mark
        ensures count { result.count ≡ count }
        ensures value { listed result ≡ take 32 blanked.now }
    {
        Mark {
            count,
            blanked: array::from_fn(|place| entry_at(blanked, place)),
        }
    }
}
