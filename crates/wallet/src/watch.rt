// A card's coin on the shelf.
ghost use Rattle.std.specs.Prelude.{◌≡◌, ◌+◌, ◌/◌, ◌≤◌, ◌++◌, length};
ghost use Rattle.utreexo.specs.Blocks.{entries};
ghost use Rattle.utreexo.specs.Outcomes.{Judged};
ghost use Rattle.utreexo.specs.Wallet.{watch_causes, with_shelf, held_from};
ghost use Rattle.climb.specs.Held.{hashes_in};
ghost use Rattle.targets.specs.Spends.{target_of};
ghost use Rattle.shelf.specs.Held.{held_of, shelf_of};
ghost use Rattle.shelf.specs.Views.{view_of};
ghost use Rattle.wallet.specs.Cards.{card_causes, held_with, IsOf};

use block::checks::check_card;
use climb::after::AfterValues;
use climb::hashes::hash_at;
use compression::Compression;
use proof::judge::judge;
use proof::readable::Block;
use refusal::Refusal;
use shelf::held::Held;
use shelf::state::State;
use std::array;
use targets::spend::Spend;

// A target's coin, as the shelf holds it: with these hashes for its path.
fn coin_of(target: Spend, hashes: &[u8]) -> Held
    requires { target.node.row + length hashes.now / 32 ≤ 31 }
    ensures { held_of result ≡ held_with (target_of target) (hashes_in hashes.now) }
{
    Held {
        coin: target.coin,
        row: target.node.row,
        place: target.node.place,
        path: array::from_fn(|i| hash_at(hashes, i)),
        len: (hashes.len() / 32) as u8,
    }
}

// The one target of a card, once all is checked that take checks too, except for the limit: a card adds no coin.
fn judge_card<C: Compression>(state: &State, card: &Block) -> Result<Spend, Refusal>
    ensures { Judged (card_causes C.Compression.image state.now.count state.now.roots card.now.bytes.now) (IsOf state.now.count card.now.bytes.now) result }
{
    let Ok(()) = card.check_order() else {
        return Err(Refusal::TargetsNotAscending);
    };
    let Ok(()) = check_card(card.counts()) else {
        return Err(Refusal::NotACard);
    };
    let mut after = AfterValues::empty();
    let accepted = judge::<C>(state.count, &state.roots, card, &mut after)?;
    Ok(accepted.targets.as_slice()[0])
}

// The state once a card is watched.
pub(crate) fn watched<C: Compression>(state: State, bytes: &[u8]) -> Result<State, Refusal>
    ensures { Judged (watch_causes C.Compression.image (view_of state) bytes.now) (λ s. view_of s ≡ with_shelf (view_of state) (shelf_of state.shelf ++ held_from state.count (entries bytes.now))) result }
{
    let card = Block::read(bytes)?;
    let target = judge_card::<C>(&state, &card)?;
    let None = state.shelf.find(target.node) else {
        return Err(Refusal::AlreadyOnShelf);
    };
    let mut next = state;
    let Ok(()) = next.shelf.push(coin_of(target, card.hashes())) else {
        return Err(Refusal::ShelfFull);
    };
    Ok(next)
}
