// Judging a block that a bridge is to take.
ghost use Rattle.std.specs.Prelude.{◌≡◌, true, false, not, map, length, MatchOption};
ghost use Rattle.utreexo.specs.Bridge.{bridge_take_causes};
ghost use Rattle.utreexo.specs.Collection.{target_live, same_values};
ghost use Rattle.utreexo.specs.Lists.{any};
ghost use Rattle.utreexo.specs.Outcomes.{Judged};
ghost use Rattle.climb.specs.Held.{hashes_in};
ghost use Rattle.targets.specs.Targets.{placed};
ghost use Rattle.undo.specs.Marks.{target_entry};
ghost use Rattle.bridge.specs.Taking.{Takes};

use crate::fresh::fresh_hashes;
use arrayvec::ArrayVec;
use block::checks::check_limit;
use compression::Compression;
use keeper::Keeper;
use own::live_slot;
use proof::readable::Block;
use refusal::Refusal;
use targets::placed::Targets;
use undo::mark::Blanked;
use utreexo::record::Record;
use utreexo::types::{Coin, Value};

// What a block does to the slots: those that it blanks, in the order of its targets, and the coins that it adds.
#[derive(Drop)]
pub(crate) struct Taking {
    pub(crate) blanked: ArrayVec<Blanked, 32>,
    pub(crate) coins: ArrayVec<Coin, 32>,
}

// The slots of the targets, each with its coin; None if some target is not the position of a live slot with the coin that it names.
fn live_slots<C: Compression, K: Keeper<C>>(
    keeper: &K,
    targets: &Targets,
) -> Option<ArrayVec<Blanked, 32>>
    ensures { MatchOption result (any (λ t. not (target_live C.Compression.image (K.slots keeper.now) t)) (placed targets.now) ≡ true) (λ found. (any (λ t. not (target_live C.Compression.image (K.slots keeper.now) t)) (placed targets.now) ≡ false) × (found.items ≡ map (target_entry C.Compression.image (K.slots keeper.now)) (placed targets.now))) }
{
    let mut found = ArrayVec::new();
    for spend in targets.as_slice() {
        let slot = live_slot::<C, K>(keeper, spend.node, spend.coin)?;
        found.push(Blanked {
            slot,
            coin: spend.coin,
        });
    }
    Some(found)
}

// Whether the values are the hashes, of which there are as many.
fn are_hashes(values: &[Value], hashes: &[u8]) -> bool
    requires { length values.now ≡ length (hashes_in hashes.now) }
    ensures { result ≡ same_values (hashes_in hashes.now) values.now }
{
    let (hashes, _) = hashes.as_chunks::<32>();
    hashes
        .iter()
        .zip(values)
        .all(|(hash, value)| Value::from_bytes(hash) == *value)
}

// Checks 1 to 4, 6 to 8, 11, and 16 to 18, each over the whole block before the next. Nothing is changed.
pub(crate) fn judge<C: Compression, K: Keeper<C>>(
    keeper: &K,
    bytes: &[u8],
) -> Result<Taking, Refusal>
    ensures { Judged (bridge_take_causes C.Compression.image (K.limit keeper.now) (K.slots keeper.now) bytes.now) (Takes C.Compression.image (K.slots keeper.now) bytes.now) result }
{
    let block = Block::read(bytes)?;
    let count = keeper.count();
    let targets = block.place(count)?;
    let coins = block.coins();
    check_limit(count, coins.len())?;
    let Some(blanked) = live_slots::<C, K>(keeper, &targets) else {
        return Err(Refusal::NotFound);
    };
    if !are_hashes(
        fresh_hashes::<C, K>(keeper, &targets).as_slice(),
        block.hashes(),
    ) {
        return Err(Refusal::HashNotFresh);
    }
    if count as usize + coins.len() > keeper.capacity() as usize {
        return Err(Refusal::OverCapacity);
    }
    Ok(Taking { blanked, coins })
}
