// What a forest itself has at a position: own inputs, values, fresh values and roots, read from any keeper of its slots.
#![tactic(auto)]

#[cfg(test)]
mod tests;
mod walk;

ghost use Rattle.std.specs.Prelude.{◌≡◌, length, true, Some, None, is_some, IfSome, slice_index_or};
ghost use Rattle.utreexo.specs.Lists.{below};
ghost use Rattle.utreexo.specs.Forest.{root_of, roots_of};
ghost use Rattle.utreexo.specs.Collection.{own_input, slot_at, coin_at, target_live, value_at, fresh_value};
ghost use Rattle.place.specs.Nodes.{node_of, inside, number_at};
ghost use Rattle.own.specs.Answers.{input_of, input_in, slot_in, coin_in, or_zero};

use crate::walk::walk;
use compression::Compression;
use keeper::Keeper;
use keeper::read::value_over;
use keeper::run::Run;
use place::{Node, has_tree, tree_place};
use std::array;
use utreexo::types::{Coin, Input, Slot, Value};

// What stands at a node of a forest: a coin, with its slot, or two parts with their values.
#[derive(Clone, Copy, PartialEq, Eq, Debug)]
pub enum Own {
    Leaf { slot: Slot, coin: Coin },
    Pair { left: Value, right: Value },
}

impl Own {
    // The input whose image is the value at the node.
    pub fn input(self) -> Input
        ensures { result ≡ input_of self }
    {
        match self {
            Own::Leaf { coin, .. } => Input::Leaf(coin),
            Own::Pair { left, right } => Input::Pair(left, right),
        }
    }
}

// What stands at a node; None where nothing does, and outside the forest.
pub fn at<C: Compression, K: Keeper<C>>(keeper: &K, node: Node) -> Option<Own>
    ensures input { input_in result ≡ own_input C.Compression.image (K.Keeper.slots keeper.now) node.row node.place }
    ensures slot { slot_in result ≡ slot_at C.Compression.image (K.Keeper.slots keeper.now) (node_of node) }
    ensures coin { coin_in result ≡ coin_at C.Compression.image (K.Keeper.slots keeper.now) (node_of node) }
{
    walk::<C, K>(keeper, node).map(|found| found.own)
}

// The coin at a node; None where no coin stands, and outside the forest.
pub fn coin_at<C: Compression, K: Keeper<C>>(keeper: &K, node: Node) -> Option<Coin>
    ensures { result ≡ coin_at C.Compression.image (K.Keeper.slots keeper.now) (node_of node) }
{
    match at::<C, K>(keeper, node) {
        Some(Own::Leaf { coin, .. }) => Some(coin),
        _ => None,
    }
}

// The slot of a target; None if it is not live, as where another coin stands at its node.
pub fn live_slot<C: Compression, K: Keeper<C>>(keeper: &K, node: Node, coin: Coin) -> Option<Slot>
    ensures live { is_some result ≡ target_live C.Compression.image (K.Keeper.slots keeper.now) (record { node = node_of node; coin = coin }) }
    ensures slot { IfSome result (λ w. slot_at C.Compression.image (K.Keeper.slots keeper.now) (node_of node) ≡ Some w.number) }
    ensures coin { IfSome result (λ w. slice_index_or (K.Keeper.slots keeper.now) w.number None ≡ Some coin) }
{
    match at::<C, K>(keeper, node) {
        Some(Own::Leaf { slot, coin: found }) if found == coin => Some(slot),
        _ => None,
    }
}

// The value at a node; None where nothing stands, and outside the forest. It is read, and not worked out.
pub fn value_at<C: Compression, K: Keeper<C>>(keeper: &K, node: Node) -> Option<Value>
    ensures { result ≡ value_at C.Compression.image (K.Keeper.slots keeper.now) (node_of node) }
{
    let found = walk::<C, K>(keeper, node)?;
    value_over::<C, K>(keeper, found.run)
}

fn or_zero(value: Option<Value>) -> Value
    ensures { result ≡ or_zero value }
{
    value.unwrap_or_default()
}

// The value at a node as a fresh proof gives it: zero where nothing stands, and outside the forest.
pub fn fresh_at<C: Compression, K: Keeper<C>>(keeper: &K, node: Node) -> Value
    ensures value { result ≡ or_zero (value_at C.Compression.image (K.Keeper.slots keeper.now) (node_of node)) }
    ensures fresh { inside (length (K.Keeper.slots keeper.now)) (node_of node) ≡ true → result ≡ fresh_value C.Compression.image (K.Keeper.slots keeper.now) (number_at (length (K.Keeper.slots keeper.now)) (node_of node)) }
{
    or_zero(value_at::<C, K>(keeper, node))
}

// The root of the tree of a row; None too where there is no such tree.
fn root<C: Compression, K: Keeper<C>>(keeper: &K, row: u8) -> Option<Value>
    ensures { result ≡ root_of C.Compression.image (K.Keeper.slots keeper.now) row }
{
    let count = keeper.count();
    if !has_tree(count, row) {
        return None;
    }
    value_over::<C, K>(
        keeper,
        Run {
            row,
            place: tree_place(count, row) as u64,
        },
    )
}

// The roots by row.
pub fn roots<C: Compression, K: Keeper<C>>(keeper: &K) -> [Option<Value>; 32]
    ensures { result ≡ roots_of C.Compression.image (K.Keeper.slots keeper.now) }
{
    array::from_fn(|row| root::<C, K>(keeper, row as u8))
}
