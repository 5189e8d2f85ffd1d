// Runs of slots: 2^row of them, aligned, at a place of their row.
ghost use Rattle.std.specs.Prelude.{◌≡◌, ◌+◌, ◌-◌, ◌*◌, ◌^◌, ◌<◌, ◌≤◌, ◌⊎◌, MatchOption};
ghost use Rattle.utreexo.specs.Forest.{leaf_value};
ghost use Rattle.keeper.specs.Calls.{run_within};

use compression::Compression;
use utreexo::types::{Coin, Value};

// Any numbers may be asked for, so the place is wider than that of a node of the forest, and no invariant binds the two.
#[derive(Clone, Copy, PartialEq, Eq, Debug)]
pub struct Run {
    pub row: u8,
    pub place: u64,
}

impl Run {
    // Whether a run lies within the count. Nothing is multiplied, so that large numbers are judged right.
    pub fn is_within(self, count: u32) -> bool
        ensures { result ≡ run_within count self.row self.place }
    {
        self.row < 32 && self.place < (count >> self.row) as u64
    }

    // The left half of a run, and the right one; None for a run of one slot, and where the places of the halves pass 64 bits.
    pub fn halves(self) -> Option<(Run, Run)>
        ensures { MatchOption result ((self.row ≡ 0) ⊎ (2 ^ 63 ≤ self.place)) (λ h. (0 < self.row) × (h.0 ≡ record { row = self.row - 1; place = 2 * self.place }) × (h.1 ≡ record { row = self.row - 1; place = 2 * self.place + 1 })) }
    {
        let row = self.row.checked_sub(1)?;
        let place = self.place.checked_mul(2)?;
        let left = Run { row, place };
        let right = Run {
            row,
            place: place + 1,
        };
        Some((left, right))
    }
}

// The value over one slot. Tried: `coin.map(C::leaf)`, for which the check makes no proof yet (`leaf_value`).
pub fn leaf_value<C: Compression>(coin: Option<Coin>) -> Option<Value>
    ensures { result ≡ leaf_value C.Compression.image coin }
{
    coin.map(|coin| C::leaf(coin))
}
