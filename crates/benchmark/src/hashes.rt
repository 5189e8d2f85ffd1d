// The hashes that a full keeper works out.
use compression::hash::Blake2s;
use keeper::Keeper;
use keeper::run::Run;
use utreexo::types::Slot;

// Leaf and pair images.
#[derive(Clone, Copy)]
pub(crate) struct Hashes {
    pub(crate) leaves: u64,
    pub(crate) pairs: u64,
}

impl Hashes {
    pub(crate) fn none() -> Hashes {
        Hashes {
            leaves: 0,
            pairs: 0,
        }
    }

    pub(crate) fn add(self, other: Hashes) -> Hashes {
        Hashes {
            leaves: self.leaves.saturating_add(other.leaves),
            pairs: self.pairs.saturating_add(other.pairs),
        }
    }

    pub(crate) fn total(self) -> u64 {
        self.leaves.saturating_add(self.pairs)
    }
}

// Whether the value over a run is the image of a pair.
fn is_pair<K: Keeper<Blake2s>>(keeper: &K, run: Run) -> bool {
    if !run.is_within(keeper.count()) {
        return false;
    }
    let Some((left, right)) = run.halves() else {
        return false;
    };
    matches!(keeper.value(left), Ok(Some(_))) && matches!(keeper.value(right), Ok(Some(_)))
}

// The hashes behind the values over the runs that hold a slot: those that a change of the slot works out.
pub(crate) fn over<K: Keeper<Blake2s>>(keeper: &K, slot: Slot) -> Hashes {
    let leaves = match keeper.coin(slot) {
        Ok(Some(_)) => 1,
        _ => 0,
    };
    let runs = (1..32u8).map(|row| Run {
        row,
        place: (slot.number >> row) as u64,
    });
    let pairs = runs.filter(|run| is_pair(keeper, *run)).count() as u64;
    Hashes { leaves, pairs }
}
