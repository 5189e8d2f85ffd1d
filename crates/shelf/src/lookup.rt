// Reading a coin on the shelf, and finding one.
ghost use Rattle.std.specs.Prelude.{◌≡◌, map};
ghost use Rattle.place.specs.Nodes.{node_of};
ghost use Rattle.utreexo.specs.Forest.{at_node};
ghost use Rattle.shelf.specs.Held.{held_of, shelf_of};
ghost use Rattle.shelf.specs.Finding.{index_of, is_at, has_position};

use crate::held::Held;
use crate::state::State;
use crate::table::Shelf;
use place::Node;
use utreexo::types::{Position, Value};

impl Held {
    // Where the coin is.
    pub fn node(&self) -> Node
        ensures { node_of result ≡ at_node self.now.row self.now.place }
    {
        Node {
            row: self.row,
            place: self.place,
        }
    }

    // The path, the lowest hash first.
    pub fn path(&self) -> &[Value]
        ensures { result.now ≡ (held_of self.now).path }
    {
        &self.path[..self.len as usize]
    }
}

impl Shelf {
    // The coins in the order watched.
    pub fn as_slice(&self) -> &[Held]
        ensures { map held_of result.now ≡ shelf_of self.now }
    {
        &self.coins[..self.len as usize]
    }

    // The number of the first coin at a place, counted from 0.
    pub fn find(&self, node: Node) -> Option<usize>
        ensures { result ≡ index_of (is_at (node_of node)) (shelf_of self.now) }
    {
        self.as_slice().iter().position(|held| held.node() == node)
    }
}

impl State {
    // The number of the first coin at a position, counted from 0.
    pub fn find(&self, position: Position) -> Option<usize>
        ensures { result ≡ index_of (has_position self.now.count position.number) (shelf_of self.now.shelf) }
    {
        let node = place::locate(self.count, position)?;
        self.shelf.find(node)
    }
}
