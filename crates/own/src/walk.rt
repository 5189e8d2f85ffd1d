// Down from the root of a tree to what stands at a node.
ghost use Rattle.std.specs.Prelude.{◌≡◌, ◌-◌, ◌*◌, ◌+◌, ◌/◌, ◌^◌, ◌<◌, length};
ghost use Rattle.utreexo.specs.Forest.{value_over};
ghost use Rattle.own.specs.Answers.{Finds};
ghost use Rattle.own.specs.Steps.{step_by};

use crate::Own;
use compression::Compression;
use keeper::Keeper;
use keeper::read::{coin_in, value_over};
use keeper::run::Run;
use place::{Node, tree_place, tree_row};
use utreexo::types::{Slot, Value};

// What stands at a node, and the run of slots over which it stands.
#[derive(Clone, Copy)]
pub(crate) struct Found {
    pub(crate) run: Run,
    pub(crate) own: Own,
}

// Where the way down to a node is: at a run, with so many bits of the node's place not used yet.
#[derive(Clone, Copy)]
pub(crate) struct Way {
    pub(crate) run: Run,
    pub(crate) bits: u8,
}

// What the halves of the run tell: that nothing stands at the node, that their pair does, or by which half the way goes on.
#[derive(Clone, Copy)]
pub(crate) enum Step {
    Nothing,
    Pair { left: Value, right: Value },
    On(Way),
}

impl Way {
    // Where one half of a run is blank the other takes its place, and no bit of the node's place is used; where both are not, the next bit
    // tells which. One question a row would not do: the answer for one half does not tell whether the other is blank. So it is two a row, and
    // no value is worked out here.
    fn step<C: Compression, K: Keeper<C>>(
        self,
        keeper: &K,
        left: Run,
        right: Run,
        place: u32,
    ) -> Step
        requires high { 0 < self.run.row }
        requires left { left ≡ record { row = self.run.row - 1; place = 2 * self.run.place } }
        requires right { right ≡ record { row = self.run.row - 1; place = 2 * self.run.place + 1 } }
        requires within { self.run.place < length (K.Keeper.slots keeper.now) / 2 ^ self.run.row }
        requires few { self.bits < 33 }
        ensures { result ≡ step_by C.Compression.image (K.Keeper.slots keeper.now) self place }
    {
        let values = (
            value_over::<C, K>(keeper, left),
            value_over::<C, K>(keeper, right),
        );
        match values {
            (None, None) => Step::Nothing,
            (Some(_), None) => Step::On(Way { run: left, ..self }),
            (None, Some(_)) => Step::On(Way { run: right, ..self }),
            (Some(left), Some(right)) if self.bits == 0 => Step::Pair { left, right },
            (Some(_), Some(_)) => {
                let bits = self.bits - 1;
                let half = (place >> bits) % 2;
                let run = if half == 0 { left } else { right };
                Step::On(Way { run, bits })
            }
        }
    }
}

// What stands at a node.
pub(crate) fn walk<C: Compression, K: Keeper<C>>(keeper: &K, node: Node) -> Option<Found>
    ensures { Finds C.Compression.image (K.Keeper.slots keeper.now) node.row node.place result }
{
    let count = keeper.count();
    let row = tree_row(count, node)?;
    let mut way = Way {
        run: Run {
            row,
            place: tree_place(count, row) as u64,
        },
        bits: row - node.row,
    };
    while let Some((left, right)) = way.run.halves() {
        match way.step::<C, K>(keeper, left, right, node.place) {
            Step::Nothing => return None,
            Step::Pair { left, right } => {
                return Some(Found {
                    run: way.run,
                    own: Own::Pair { left, right },
                });
            }
            Step::On(next) => way = next,
        }
    }
    if way.bits > 0 {
        return None;
    }
    let slot = Slot {
        number: way.run.place as u32,
    };
    let coin = coin_in::<C, K>(keeper, slot)?;
    Some(Found {
        run: way.run,
        own: Own::Leaf { slot, coin },
    })
}
