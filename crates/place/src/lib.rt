// Rows, places and positions of a forest, from the count alone. The count stays a parameter beside each node: it is a plain number of
// a wallet, a bridge or a script, and a struct that holds nothing else would be no plainer.
#![tactic(auto)]

#[cfg(test)]
mod tests;

ghost use Rattle.std.specs.Prelude.{◌≡◌, ◌+◌, ◌*◌, ◌/◌, ◌^◌, ◌<◌, ◌≤◌, true, is_some, IfSome, nat_lt};
ghost use Rattle.utreexo.specs.Forest.{rows, at_node, bit, tree_place, tree_of, locate, sibling};
ghost use Rattle.utreexo.specs.Claims.{beneath};
ghost use Rattle.place.specs.Nodes.{node_of, node_in, number_of, inside, below_root, sibling_of, number_at, position_at, root_position};

use utreexo::types::{Position, Slot};

// A row, and a place in it: it spans the slots place * 2^row to (place + 1) * 2^row - 1.
#[derive(Clone, Copy, PartialEq, Eq, Default, Debug)]
pub struct Node {
    pub row: u8,
    pub place: u32,
}

// R, the least number with count <= 2^R.
pub fn rows(count: u32) -> u8
    ensures value { result ≡ rows count }
    ensures low { result ≤ 32 }
{
    (32 - count.saturating_sub(1).leading_zeros()) as u8
}

// The number of the highest bit that is one.
fn highest_bit(x: u64) -> u8
    requires { 0 < x }
    ensures high_bound { 2 ^ result ≤ x }
    ensures low_bound { x < 2 * 2 ^ result }
    ensures bound { result < 64 }
{
    (63 - x.leading_zeros()) as u8
}

// The number of whole runs of 2^row slots among so many; so, too, the place that lies so many rows above a place.
pub fn runs(count: u32, row: u8) -> u32
    ensures value { result ≡ count / 2 ^ row }
    ensures low { 0 < result → row < 32 }
{
    count.unbounded_shr(row as u32)
}

// Whether a place is in the forest. The place above a root is not, since its run reaches past the count.
fn is_inside(count: u32, node: Node) -> bool
    ensures value { result ≡ inside count (node_of node) }
    ensures low { result ≡ true → node.row < 32 }
{
    node.place < runs(count, node.row)
}

// Whether a place is at another or beneath it.
pub fn is_beneath(lower: Node, upper: Node) -> bool
    ensures { result ≡ beneath (node_of lower) (node_of upper) }
{
    lower.row <= upper.row && runs(lower.place, upper.row - lower.row) == upper.place
}

// The row and place of a position; None if it is not in the forest.
pub fn locate(count: u32, position: Position) -> Option<Node>
    ensures value { node_in result ≡ locate count position.number }
    ensures low { IfSome result (λ d. d.row < 32) }
{
    let rows = rows(count);
    let end = (2u64 << rows) - 1;
    if position.number >= end {
        return None;
    }
    // Counted back from the end, the row of 2^depth places has the numbers 2^depth to 2^(depth + 1) - 1.
    let back = end - position.number;
    let depth = highest_bit(back);
    let found = Node {
        row: rows - depth,
        place: ((2u64 << depth) - 1 - back) as u32,
    };
    if !is_inside(count, found) {
        return None;
    }
    Some(found)
}

// The number of a place, whether or not it is in the forest.
fn number(count: u32, node: Node) -> u64
    ensures { result ≡ number_at count (node_of node) }
{
    let height = rows(count) + 1;
    (1u64 << height) - (1u64 << height.saturating_sub(node.row)) + node.place as u64
}

// The position of a place; None if it is not in the forest.
pub fn position_of(count: u32, node: Node) -> Option<Position>
    ensures { number_of result ≡ position_at count (node_of node) }
{
    if !is_inside(count, node) {
        return None;
    }
    Some(Position {
        number: number(count, node),
    })
}

// The row of the tree that a place lies in; None if it is not in the forest. The tree is that of the highest bit in which the place
// and the number of runs differ.
pub fn tree_row(count: u32, node: Node) -> Option<u8>
    ensures value { result ≡ tree_of count (node_of node) }
    ensures range { IfSome result (λ k. (node.row ≤ k) × (k < 32)) }
{
    let runs = runs(count, node.row);
    if node.place >= runs {
        return None;
    }
    Some(node.row + highest_bit(node.place as u64 ^ runs as u64))
}

// The row of the tree over a slot; None at or past the count.
pub fn slot_tree_row(count: u32, slot: Slot) -> Option<u8>
    ensures value { result ≡ tree_of count (at_node 0 slot.number) }
    ensures below { is_some result ≡ nat_lt slot.number count }
    ensures low { IfSome result (λ k. k < 32) }
{
    tree_row(
        count,
        Node {
            row: 0,
            place: slot.number,
        },
    )
}

// Whether a tree of 2^row slots stands in the forest.
pub fn has_tree(count: u32, row: u8) -> bool
    ensures { result ≡ bit count row }
{
    runs(count, row) % 2 == 1
}

// The place of the tree of a row, if it has one: the last whole run.
pub fn tree_place(count: u32, row: u8) -> u32
    ensures { result ≡ tree_place count row }
{
    runs(count, row).saturating_sub(1)
}

// Whether a place is in the forest and no root, so that it has a sibling there.
fn is_below_root(count: u32, node: Node) -> bool
    ensures value { result ≡ below_root count (node_of node) }
    ensures low { result ≡ true → node.row < 32 }
{
    node.place / 2 < runs(count, node.row) / 2
}

// The other of the two places that have one parent; of any place, in the forest or not.
pub fn sibling_place(place: u32) -> u32
    ensures { result ≡ sibling place }
{
    if place % 2 == 0 { place + 1 } else { place - 1 }
}

// The sibling of a place; None at a root or outside the forest.
pub fn sibling(count: u32, node: Node) -> Option<Node>
    ensures { node_in result ≡ sibling_of count (node_of node) }
{
    if !is_below_root(count, node) {
        return None;
    }
    Some(Node {
        row: node.row,
        place: sibling_place(node.place),
    })
}

// The position of the root of the tree that a place lies in; None if it is not in the forest.
pub fn root_position(count: u32, node: Node) -> Option<Position>
    ensures { number_of result ≡ root_position count (node_of node) }
{
    let row = tree_row(count, node)?;
    let root = Node {
        row,
        place: tree_place(count, row),
    };
    Some(Position {
        number: number(count, root),
    })
}
