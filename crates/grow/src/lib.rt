// The coins that a block adds come into count, roots and shelf. Nothing here allocates.
#![tactic(auto)]

mod carry;
mod joined;
#[cfg(test)]
mod tests;

ghost use Rattle.std.specs.Prelude.{◌≡◌, ◌+◌, [], ◌∷◌, length, IfErr, nat_lt};
ghost use Rattle.utreexo.specs.Checks.{cause, most_slots};
ghost use Rattle.utreexo.specs.Outcomes.{Judged};
ghost use Rattle.utreexo.specs.Wallet.{add_all};
ghost use Rattle.shelf.specs.Views.{view_of};

use block::checks::check_limit;
use compression::Compression;
use refusal::Refusal;
use shelf::state::State;
use utreexo::types::Coin;

// Adds the coins in their order, each in a slot of its own at the end.
pub fn add_all<C: Compression>(state: &mut State, coins: &[Coin]) -> Result<(), Refusal>
    ensures view { Judged (cause 11 (nat_lt most_slots (state.old.count + length coins.now)) ∷ []) (λ _. view_of state.new ≡ add_all C.Compression.image (view_of state.old) coins.now) result }
    ensures refused { IfErr result (λ _. state.new ≡ state.old) }
{
    check_limit(state.count, coins.len())?;
    for coin in coins {
        carry::add_coin::<C>(state, *coin);
    }
    Ok(())
}
