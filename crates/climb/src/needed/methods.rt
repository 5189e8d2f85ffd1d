// Finding the needed positions. A climb that works no value out finds the rows.
ghost use Rattle.std.specs.Prelude.{◌≡◌, ◌+◌, ◌≤◌, true, ◌++◌, map, length, All};
ghost use Rattle.place.specs.Nodes.{node_of, inside};
ghost use Rattle.utreexo.specs.Claims.{needed as needed_positions};
ghost use Rattle.utreexo.specs.Forest.{at_node};
ghost use Rattle.targets.specs.Targets.{placed};
ghost use Rattle.climb.specs.Rows.{lones};
ghost use Rattle.climb.specs.Needed.{nodes_of, numbered, places};

use super::Needed;
use crate::above::is_top;
use crate::item::{Item, Row};
use crate::no_values::NoValues;
use crate::rise::Rise;
use crate::step::split_sibling;
use inline_list::InlineList;
use place::{Node, sibling_place};
use targets::placed::Targets;

impl Needed {
    // Puts the siblings that are not covered last, for a row of `width` places with these covered ones.
    // The walk is that of `step_row`, kept apart: one for both would take a closure each for a root, a pair and a lone item, no plainer.
    fn push_siblings(&mut self, row: u8, items: &[Item], width: u32)
        requires { length (nodes_of self.old) + length items.now ≤ 1024 }
        ensures { nodes_of self.new ≡ nodes_of self.old ++ map (at_node row) (lones width (places items.now)) }
    {
        let mut rest = items;
        while let Some((item, after)) = rest.split_first() {
            if is_top(width, item.place) {
                rest = after;
            } else if let Some((_, others)) = split_sibling(*item, after) {
                rest = others;
            } else {
                let place = sibling_place(item.place);
                self.nodes.try_push(Node { row, place }).unwrap();
                rest = after;
            }
        }
    }

    // The needed positions of targets: those whose sibling is covered, and which are not covered themselves. All are in the forest, so
    // that a position is none other's.
    pub fn of(targets: &Targets) -> Needed
        ensures positions { numbered targets.now.count (nodes_of result) ≡ needed_positions targets.now.count (placed targets.now) }
        ensures places { All (λ d. inside targets.now.count d ≡ true) (nodes_of result) }
    {
        let mut needed = Needed {
            nodes: InlineList::new(),
        };
        let mut rise = Rise::new(targets, &[]);
        let mut items = Row::new();
        // A row is a number here, as in `climb`.
        for row in 0..32u8 {
            rise.work::<NoValues>(row, &mut items);
            needed.push_siblings(row, items.as_slice(), targets.count() >> row);
        }
        needed
    }

    // How many they are. In memory the list is as large as three rows, so no list is made to be counted. Kept out of line, as `climb` is.
    #[inline(never)]
    pub fn count(targets: &Targets) -> usize
        ensures { result ≡ length (needed_positions targets.now.count (placed targets.now)) }
    {
        let mut rise = Rise::new(targets, &[]);
        let mut items = Row::new();
        for row in 0..32u8 {
            rise.work::<NoValues>(row, &mut items);
        }
        rise.hashes.used
    }

    // Their places, ascending.
    pub fn as_slice(&self) -> &[Node]
        ensures nodes { map node_of result.now ≡ nodes_of self.now }
        ensures few { length result.now ≤ 1024 }
    {
        self.nodes.as_slice()
    }
}
