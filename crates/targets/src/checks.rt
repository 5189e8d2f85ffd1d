// Where the positions of a block are, and whether one is above another.
ghost use Rattle.std.specs.Prelude.{◌≡◌, ◌/◌, ◌^◌, ◌≤◌, true, length, MatchOption};
ghost use Rattle.inline_list.specs.InlineList.{listed};
ghost use Rattle.utreexo.specs.Lists.{any};
ghost use Rattle.utreexo.specs.Checks.{above_another, outside, strictly_above};
ghost use Rattle.block.specs.Compose.{numbers};
ghost use Rattle.targets.specs.Spends.{target_of, targets};
ghost use Rattle.targets.specs.Targets.{Located};

use crate::spend::{Spend, Spends};
use utreexo::types::{Coin, Position};

// The targets at the positions, each with the coin of the same number, if all are in the forest. The two lists are those of a block.
pub(crate) fn place_all(count: u32, positions: &[Position], coins: &[Coin]) -> Option<Spends>
    requires few { length positions.now ≤ 32 }
    requires same { length positions.now ≡ length coins.now }
    ensures { MatchOption result (any (outside count) (numbers positions.now) ≡ true) (λ spends. Located count (numbers positions.now) coins.now (listed spends)) }
{
    let mut spends = Spends::new();
    for (position, coin) in positions.iter().zip(coins) {
        let node = place::locate(count, *position)?;
        // There is room for all, so that the call cannot fail.
        spends.try_push(Spend { node, coin: *coin }).unwrap();
    }
    Some(spends)
}

// Whether a target is above another.
fn is_above(upper: Spend, lower: Spend) -> bool
    ensures { result ≡ strictly_above (target_of upper) (target_of lower) }
{
    lower.node.row < upper.node.row && place::is_beneath(lower.node, upper.node)
}

fn is_above_any(upper: Spend, spends: &[Spend]) -> bool
    ensures { result ≡ any (strictly_above (target_of upper)) (targets spends.now) }
{
    spends.iter().any(|lower| is_above(upper, *lower))
}

// Whether some target is above another.
pub(crate) fn any_above(spends: &[Spend]) -> bool
    ensures { result ≡ above_another (targets spends.now) }
{
    spends.iter().any(|upper| is_above_any(*upper, spends))
}
