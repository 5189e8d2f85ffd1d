// What a block claims of the forest's places.
ghost use Rattle.std.specs.Prelude.{◌≡◌, ◌^◌, ◌<◌, true, map, All};
ghost use Rattle.utreexo.specs.Forest.{at_node};
ghost use Rattle.utreexo.specs.Claims.{needed as needed_positions, covered, target_at, claim_at, claimed, claimed_input};
ghost use Rattle.place.specs.Nodes.{node_of, inside};
ghost use Rattle.targets.specs.Targets.{placed};
ghost use Rattle.climb.specs.After.{Fills};
ghost use Rattle.climb.specs.Claimed.{claims};
ghost use Rattle.climb.specs.Needed.{numbered};
ghost use Rattle.challenge.specs.Claimed.{coin_of};

use climb::after::AfterValues;
use compression::Compression;
use place::Node;
use std::marker::PhantomData;
use targets::placed::Targets;
use utreexo::record::Record;
use utreexo::types::{Coin, Input, Value};

// A block's claims: its targets, the table of the covered places, and the hashes of the needed ones. The table has what targets and
// hashes claim, and `needed` are the needed places, all in the forest.
#[derive(Drop)]
pub(crate) struct Claims<'a, C: Compression> {
    pub(crate) targets: &'a Targets,
    pub(crate) table: &'a AfterValues,
    pub(crate) needed: &'a [Node],
    pub(crate) hashes: &'a [u8],
    pub(crate) compression: PhantomData<C>,
    ghost small: { targets.now.count < 2 ^ 32 },
    ghost filled: { Fills C.Compression.image (claims targets.now hashes.now) table.now },
    ghost positions: { numbered targets.now.count (map node_of needed.now) ≡ needed_positions targets.now.count (placed targets.now) },
    ghost places: { All (λ d. inside targets.now.count d ≡ true) (map node_of needed.now) },
}

impl<C: Compression> Claims<'_, C> {
    // The coin that a target names.
    fn coin(&self, node: Node) -> Option<Coin>
        ensures { result ≡ coin_of (target_at (placed self.now.targets.now) (node_of node)) }
    {
        self.targets
            .as_slice()
            .iter()
            .find(|spend| spend.node == node)
            .map(|spend| spend.coin)
    }

    // The hash of a needed place; zero for another.
    fn hash(&self, node: Node) -> Value
        requires { inside self.now.targets.now.count (node_of node) ≡ true }
        ensures { result ≡ (claims self.now.targets.now self.now.hashes.now).hash node.row node.place }
    {
        let (hashes, _) = self.hashes.as_chunks::<32>();
        self.needed
            .iter()
            .zip(hashes)
            .find(|(place, _)| **place == node)
            .map_or(Value::default(), |(_, hash)| Value::from_bytes(hash))
    }

    // The claimed value of a place: a covered one is in the table, and another is claimed by its hash.
    fn value(&self, node: Node) -> Value
        requires { inside self.now.targets.now.count (node_of node) ≡ true }
        ensures { result ≡ claimed C.Compression.image (claim_at (claims self.now.targets.now self.now.hashes.now) node.row node.place) }
    {
        let row = self.table.row(node.row);
        match row.iter().find(|item| item.place == node.place) {
            Some(item) => item.claim,
            None => self.hash(node),
        }
    }

    // The claimed input of a covered place.
    pub(crate) fn input(&self, node: Node) -> Option<Input>
        requires inside { inside self.now.targets.now.count (node_of node) ≡ true }
        requires covered { covered (placed self.now.targets.now) (node_of node) ≡ true }
        ensures { result ≡ claimed_input C.Compression.image (claim_at (claims self.now.targets.now self.now.hashes.now) node.row node.place) }
    {
        if let Some(coin) = self.coin(node) {
            return Some(Input::Leaf(coin));
        }
        let row = node.row.checked_sub(1)?;
        let left = Node {
            row,
            place: 2 * node.place,
        };
        let right = Node {
            row,
            place: left.place + 1,
        };
        Some(Input::Pair(self.value(left), self.value(right)))
    }
}
