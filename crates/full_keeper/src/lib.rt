// The full keeper: beside the coins it keeps the value over every run within the count.
#![tactic(auto)]

mod layout;
mod relay;

ghost use Rattle.std.specs.Prelude.{◌≡◌, ℕ, ◌+◌, ◌^◌, ◌<◌, ◌≤◌, [], length, IfOk, vec_len};
ghost use Rattle.utreexo.specs.Forest.{rows as rows_of};
ghost use Rattle.full_keeper.specs.Table.{AtPositions};
ghost use Rattle.std.proofs.Common.{rules};

use crate::layout::*;
use crate::relay::relay;
use compression::Compression;
use keeper::Keeper;
use keeper::bare::Bare;
use keeper::run::Run;
use refusal::Refusal;
use std::alloc::{AllocError, Global};
use utreexo::types::{Coin, Slot, Value};

// The table is numbered as positions are, with the R of the count, which is worked out when it is needed. The table has its full
// length from the start, so that no call but `new` allocates.
#[derive(Drop)]
pub struct Full<C: Compression> {
    bare: Bare<C>,
    table: Vec<Option<Value>>,
    ghost room: { vec_len table ≡ 2 ^ (rows_of bare.limit + 1) },
    ghost stored: { AtPositions C.Compression.image bare.coins.items table.items },
}

impl<C: Compression> Full<C> {
    // Reserves all the memory that it will use, and writes the whole table, all absent. The error is want of memory, and comes too for a
    // capacity that is too large to hold.
    pub fn new(heap: Global, capacity: u32) -> Result<Full<C>, AllocError>
        ensures { IfOk result (λ m. (m.bare.coins.items ≡ []) × (m.bare.limit ≡ capacity)) }
    {
        let bare = Bare::new(heap, capacity)?;
        let table = vec![in heap; None; 2usize << place::rows(capacity)]?;
        Ok(Full { bare, table })
    }
}

impl<C: Compression> Keeper<C> for Full<C> {
    ghost slots = { λ m. m.bare.coins.items };

    ghost limit = { λ m. m.bare.limit };

    ghost fits = { Prim.search rules };

    ghost small = { Prim.search rules };

    fn count(&self) -> u32 {
        self.bare.count()
    }

    fn capacity(&self) -> u32 {
        self.bare.capacity()
    }

    fn coin(&self, slot: Slot) -> Result<Option<Coin>, Refusal> {
        self.bare.coin(slot)
    }

    fn value(&self, run: Run) -> Result<Option<Value>, Refusal> {
        let count = self.count();
        if !run.is_within(count) {
            return Err(Refusal::NotFound);
        }
        Ok(self.table[index_of(place::rows(count), run)])
    }

    fn append(&mut self, coin: Coin) -> Result<(), Refusal> {
        let count = self.bare.count();
        self.bare.append(coin)?;
        let table = self.table.as_mut_slice();
        relay(table, count, count + 1);
        update_path::<C>(table, self.bare.slots(), count as usize);
        Ok(())
    }

    fn blank(&mut self, slot: Slot) -> Result<(), Refusal> {
        self.bare.blank(slot)?;
        update_path::<C>(
            self.table.as_mut_slice(),
            self.bare.slots(),
            slot.number as usize,
        );
        Ok(())
    }

    fn refill(&mut self, slot: Slot, coin: Coin) -> Result<(), Refusal> {
        self.bare.refill(slot, coin)?;
        update_path::<C>(
            self.table.as_mut_slice(),
            self.bare.slots(),
            slot.number as usize,
        );
        Ok(())
    }

    // The values over the last slot stay in the table: their runs are within the count no more.
    fn cut(&mut self) -> Result<(), Refusal> {
        self.bare.cut()?;
        let count = self.bare.count();
        relay(self.table.as_mut_slice(), count + 1, count);
        Ok(())
    }
}
