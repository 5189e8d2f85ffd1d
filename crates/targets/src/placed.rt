// The targets of a block that the checks on positions let pass.
ghost use Rattle.std.specs.Prelude.{◌≡◌, true};
ghost use Rattle.inline_list.specs.InlineList.{listed};
ghost use Rattle.targets.specs.Valid.{valid};
ghost use Rattle.targets.specs.Spends.{targets};

use crate::spend::Spends;

// Targets in a forest of `count` slots: all in the forest, ascending, and none above another. Only `place` makes one.
#[derive(Copy)]
pub struct Targets {
    count: u32,
    spends: Spends,
    ghost valid: { valid count (targets (listed spends)) ≡ true },
}

mod methods;
