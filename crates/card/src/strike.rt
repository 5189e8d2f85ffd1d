// Where a slot's coin stands, by striking out the bits of its number.
ghost use Rattle.std.specs.Prelude.{◌≡◌, MatchOption, nat_lt, false, length};
ghost use Rattle.utreexo.specs.Forest.{slot_struck};
ghost use Rattle.card.specs.Held.{struck_of};

use arrayvec::ArrayVec;
use compression::Compression;
use keeper::Keeper;
use keeper::read::value_over;
use keeper::run::Run;
use place::{Node, runs, sibling_place, slot_tree_row};
use utreexo::types::{Slot, Value};

// A row and a place, and the path from there up: the values over the sibling runs that are not blank.
#[derive(Drop)]
pub(crate) struct Struck {
    pub(crate) node: Node,
    pub(crate) path: ArrayVec<Value, 32>,
}

// Walks down the sibling runs of a slot, the largest first, so that each bit of the slot's number is struck out or kept in front of those
// above it. None at or past the count.
pub(crate) fn strike<C: Compression, K: Keeper<C>>(keeper: &K, slot: Slot) -> Option<Struck>
    ensures { MatchOption result (nat_lt slot.number (length (K.slots keeper.now)) ≡ false) (λ k. struck_of k ≡ slot_struck C.Compression.image (K.slots keeper.now) slot.number) }
{
    let tree = slot_tree_row(keeper.count(), slot)?;
    let mut node = Node {
        row: 0,
        place: runs(slot.number, tree),
    };
    let mut path = ArrayVec::new();
    for row in (0..tree).rev() {
        let place = runs(slot.number, row);
        let sibling = Run {
            row,
            place: sibling_place(place) as u64,
        };
        match value_over::<C, K>(keeper, sibling) {
            Some(value) => {
                node.place = 2 * node.place + place % 2;
                path.insert(0, value);
            }
            None => node.row += 1,
        }
    }
    Some(Struck { node, path })
}
