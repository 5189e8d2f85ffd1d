// Live slots as wallets know them: their positions, their paths and their cards, read from any keeper. Nothing here allocates, and no
// value is worked out.
#![tactic(auto)]

mod strike;

ghost use Rattle.std.specs.Prelude.{◌≡◌, length};
ghost use Rattle.utreexo.specs.Outcomes.{answered, Writes};
ghost use Rattle.utreexo.specs.Collection.{held_at, card_bytes, card as card_answer};
ghost use Rattle.card.specs.Held.{held_in};

use crate::strike::{Struck, strike};
use block::compose::compose;
use compression::Compression;
use keeper::Keeper;
use keeper::read::coin_in;
use refusal::Refusal;
use utreexo::types::{Coin, Slot};

// A live slot's coin, and where it stands.
#[derive(Drop)]
struct Live {
    coin: Coin,
    struck: Struck,
}

// The coin of a slot, its place and its path; None if the slot is blank or past the count.
fn held<C: Compression, K: Keeper<C>>(keeper: &K, slot: Slot) -> Option<Live>
    ensures { held_in result ≡ held_at C.Compression.image (K.slots keeper.now) slot.number }
{
    let coin = coin_in::<C, K>(keeper, slot)?;
    let struck = strike::<C, K>(keeper, slot)?;
    Some(Live { coin, struck })
}

// Writes the card of a slot: the block that spends its coin alone, with a fresh proof, and adds none.
pub fn card<C: Compression, K: Keeper<C>>(
    keeper: &K,
    slot: Slot,
    out: &mut [u8],
) -> Result<usize, Refusal>
    ensures answer { answered result out.new ≡ card_answer C.Compression.image (K.slots keeper.now) slot.number out.old }
    ensures left { Writes (card_bytes (length (K.slots keeper.now)) (held_at C.Compression.image (K.slots keeper.now) slot.number)) out.old out.new result }
{
    let Some(live) = held::<C, K>(keeper, slot) else {
        return Err(Refusal::NotFound);
    };
    let Some(position) = place::position_of(keeper.count(), live.struck.node) else {
        return Err(Refusal::NotFound);
    };
    compose(
        &[position],
        &[live.coin],
        live.struck.path.as_slice(),
        &[],
        out,
    )
}
