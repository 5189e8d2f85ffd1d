// The bare keeper: it keeps the coins, and works values out when asked.
ghost use Rattle.std.specs.Prelude.{◌≡◌, ℕ, ◌/◌, ◌^◌, ◌<◌, ◌≤◌, [], length, IfOk, vec_len, vec_capacity};
ghost use Rattle.utreexo.specs.Forest.{value_over};
ghost use Rattle.std.proofs.Common.{rules};

use crate::Keeper;
use crate::run::*;
use compression::{Compression, join};
use refusal::Refusal;
use std::alloc::{AllocError, Global};
use std::marker::PhantomData;
use utreexo::types::{Coin, Slot, Value};

#[derive(Drop)]
pub struct Bare<C: Compression> {
    coins: Vec<Option<Coin>>,
    limit: u32,
    compression: PhantomData<C>,
    ghost fits: { vec_len coins ≤ limit },
    ghost small: { limit < 2 ^ 32 },
    ghost reserved: { limit ≤ vec_capacity coins },
}

// The value over a run within the slots, from those over its halves.
fn value_over<C: Compression>(slots: &[Option<Coin>], run: Run) -> Option<Value>
    requires { run.place < length slots.now / 2 ^ run.row }
    ensures { result ≡ value_over C.Compression.image slots.now run.row run.place }
{
    let Some((left, right)) = run.halves() else {
        return leaf_value::<C>(slots[run.place as usize]);
    };
    let left = value_over::<C>(slots, left);
    let right = value_over::<C>(slots, right);
    join::<C>(left, right)
}

impl<C: Compression> Bare<C> {
    // Reserves all the memory that it will use: no later call allocates. The error is want of memory, and comes too for a capacity that is
    // too large to hold.
    pub fn new(heap: Global, capacity: u32) -> Result<Bare<C>, AllocError>
        ensures { IfOk result (λ m. (m.coins.items ≡ []) × (m.limit ≡ capacity)) }
    {
        let coins = Vec::with_capacity(heap, capacity as usize)?;
        Ok(Bare {
            coins,
            limit: capacity,
            compression: PhantomData,
        })
    }

    // The slots, from slot 0.
    pub fn slots(&self) -> &[Option<Coin>]
        ensures { result.now ≡ self.now.coins.items }
    {
        self.coins.as_slice()
    }
}

impl<C: Compression> Keeper<C> for Bare<C> {
    ghost slots = { λ m. m.coins.items };

    ghost limit = { λ m. m.limit };

    ghost fits = { Prim.search rules };

    ghost small = { Prim.search rules };

    fn count(&self) -> u32 {
        self.coins.len() as u32
    }

    fn capacity(&self) -> u32 {
        self.limit
    }

    fn coin(&self, slot: Slot) -> Result<Option<Coin>, Refusal> {
        self.coins
            .get(slot.number as usize)
            .copied()
            .ok_or(Refusal::NotFound)
    }

    fn value(&self, run: Run) -> Result<Option<Value>, Refusal> {
        if !run.is_within(self.count()) {
            return Err(Refusal::NotFound);
        }
        Ok(value_over::<C>(self.slots(), run))
    }

    fn append(&mut self, coin: Coin) -> Result<(), Refusal> {
        if self.coins.len() >= self.limit as usize {
            return Err(Refusal::OverCapacity);
        }
        self.coins.push_reserved(Some(coin));
        Ok(())
    }

    fn blank(&mut self, slot: Slot) -> Result<(), Refusal> {
        match self.coins.get_mut(slot.number as usize) {
            Some(entry) if entry.is_some() => {
                *entry = None;
                Ok(())
            }
            _ => Err(Refusal::NotFound),
        }
    }

    fn refill(&mut self, slot: Slot, coin: Coin) -> Result<(), Refusal> {
        match self.coins.get_mut(slot.number as usize) {
            Some(entry) if entry.is_none() => {
                *entry = Some(coin);
                Ok(())
            }
            _ => Err(Refusal::NotFound),
        }
    }

    fn cut(&mut self) -> Result<(), Refusal> {
        self.coins.pop().map(|_| ()).ok_or(Refusal::NotFound)
    }
}
