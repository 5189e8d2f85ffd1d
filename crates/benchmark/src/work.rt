// What is measured: a keeper filled, then emptied, and the same number of hashes alone.
use crate::hashes::{Hashes, over};
use compression::Compression;
use compression::hash::Blake2s;
use keeper::Keeper;
use refusal::Refusal;
use utreexo::types::{Coin, Slot, Value};

// Slots are blanked in steps of this many, so that neighbours go at different times.
const STEP: u64 = 38_197;

fn coin(number: u32) -> Coin {
    Coin {
        w0: number as u64,
        w1: 0,
        w2: 0,
        w3: 0,
    }
}

// The slot that is blanked after `number` others.
fn next_slot(number: u32, slots: u32) -> Slot {
    let next = (number as u64 * STEP)
        .checked_rem(slots as u64)
        .unwrap_or(0);
    Slot {
        number: (next & 0xffff_ffff) as u32,
    }
}

pub(crate) fn fill<K: Keeper<Blake2s>>(keeper: &mut K, slots: u32) -> Result<(), Refusal> {
    for number in 0..slots {
        keeper.append(coin(number))?;
    }
    Ok(())
}

pub(crate) fn empty<K: Keeper<Blake2s>>(keeper: &mut K, slots: u32) -> Result<(), Refusal> {
    for number in 0..slots {
        keeper.blank(next_slot(number, slots))?;
    }
    Ok(())
}

// The hashes of `fill`.
pub(crate) fn count_fill<K: Keeper<Blake2s>>(
    keeper: &mut K,
    slots: u32,
) -> Result<Hashes, Refusal> {
    let mut hashes = Hashes::none();
    for number in 0..slots {
        keeper.append(coin(number))?;
        hashes = hashes.add(over(keeper, Slot { number }));
    }
    Ok(hashes)
}

// The hashes of `empty`.
pub(crate) fn count_empty<K: Keeper<Blake2s>>(
    keeper: &mut K,
    slots: u32,
) -> Result<Hashes, Refusal> {
    let mut hashes = Hashes::none();
    for number in 0..slots {
        let slot = next_slot(number, slots);
        keeper.blank(slot)?;
        hashes = hashes.add(over(keeper, slot));
    }
    Ok(hashes)
}

// So many leaf images, each of what the one before gave.
fn hash_leaves(start: Value, leaves: u64) -> Value {
    let mut value = start;
    for _ in 0..leaves {
        value = Blake2s::leaf(Coin {
            w0: value.w0,
            w1: value.w1,
            w2: value.w2,
            w3: value.w3,
        });
    }
    value
}

// So many pair images, each of what the one before gave.
fn hash_pairs(start: Value, pairs: u64) -> Value {
    let mut value = start;
    for _ in 0..pairs {
        value = Blake2s::pair(value, value);
    }
    value
}

// So many leaf images, then so many pair images.
pub(crate) fn hash(start: Value, hashes: Hashes) -> Value {
    hash_pairs(hash_leaves(start, hashes.leaves), hashes.pairs)
}
