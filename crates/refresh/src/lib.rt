// What a block's spent coins change in a state: those of the shelf leave it, and the paths of the others are refreshed in place. Nothing
// here allocates.
#![tactic(auto)]

mod leave;
mod refresh;
#[cfg(test)]
mod tests;

ghost use Rattle.std.specs.Prelude.{◌≡◌};
ghost use Rattle.targets.specs.Targets.{placed};
ghost use Rattle.climb.specs.After.{look};
ghost use Rattle.shelf.specs.Held.{shelf_of};
ghost use Rattle.shelf.specs.Views.{view_of};
ghost use Rattle.refresh.specs.Spent.{shelf_after, Spends};

use climb::after::AfterValues;
use leave::drop_spent;
use refresh::refresh_all;
use shelf::state::State;
use targets::placed::Targets;
use utreexo::types::Value;

// Spends the targets of a block: `after` is the table of its after-values, and `roots` are the roots that it leaves. Which coins leave is
// judged before any is refreshed, so in the forest before the block.
pub fn spend(state: &mut State, targets: &Targets, after: &AfterValues, roots: &[Option<Value>; 32])
    ensures count { state.new.count ≡ state.old.count }
    ensures roots { state.new.roots ≡ roots.now }
    ensures shelf { shelf_of state.new.shelf ≡ shelf_after (look after.now) (placed targets.now) (shelf_of state.old.shelf) }
    ensures spent { Spends (placed targets.now) after.now roots.now (view_of state.old) (view_of state.new) }
{
    drop_spent(&mut state.shelf, targets.as_slice());
    refresh_all(&mut state.shelf.coins, state.shelf.len, after);
    state.roots = *roots;
}
