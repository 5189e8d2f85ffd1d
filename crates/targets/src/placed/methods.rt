// Placing the targets of a block, and reading them.
ghost use Rattle.std.specs.Prelude.{◌≡◌, ◌≤◌, true, length};
ghost use Rattle.utreexo.specs.Outcomes.{Judged};
ghost use Rattle.block.specs.Compose.{numbers};
ghost use Rattle.targets.specs.Valid.{valid};
ghost use Rattle.targets.specs.Spends.{targets};
ghost use Rattle.targets.specs.Targets.{placed, target_causes, Are};

use super::Targets;
use crate::checks::{any_above, place_all};
use crate::spend::{Spend, Spends};
use block::checks::check_ascending;
use refusal::Refusal;
use std::alloc::AllocError;
use utreexo::types::{Coin, Position};

impl Targets {
    // The targets at these positions of a forest of `count` slots, each with the coin of the same number. By a rule of the project a block
    // has its targets and its coins as two lists. Kept out of line: in its caller's frame its lists would stand beside those that come after.
    #[inline(never)]
    pub fn place(count: u32, positions: &[Position], coins: &[Coin]) -> Result<Targets, Refusal>
        ensures { Judged (target_causes count (numbers positions.now) coins.now) (Are count (numbers positions.now) coins.now) result }
    {
        // By a rule of the project the check chain takes each answer apart with `let .. else`.
        if positions.len() > 32 {
            return Err(Refusal::OverLimit);
        }
        if positions.len() != coins.len() {
            return Err(Refusal::WrongLength);
        }
        let Ok(()) = check_ascending(positions) else {
            return Err(Refusal::TargetsNotAscending);
        };
        let Some(spends) = place_all(count, positions, coins) else {
            return Err(Refusal::TargetOutsideForest);
        };
        if any_above(spends.as_slice()) {
            return Err(Refusal::TargetAboveAnother);
        }
        Ok(Targets { count, spends })
    }

    // The count of the forest that they are placed in.
    pub fn count(&self) -> u32
        ensures { result ≡ self.now.count }
    {
        self.count
    }

    // The targets, ascending by row and place.
    pub fn as_slice(&self) -> &[Spend]
        ensures value { targets result.now ≡ placed self.now }
        ensures valid { valid self.now.count (targets result.now) ≡ true }
        ensures few { length result.now ≤ 32 }
    {
        self.spends.as_slice()
    }
}

// Written out, so that its promise is read here: a copy is the value itself.
impl Clone for Targets {
    ghost is_clone = { λ t u. u ≡ t };

    ghost is_infallible = { λ _. Unit {0} };

    fn clone(&self) -> Result<Targets, AllocError> {
        Ok(*self)
    }
}
