// Keepers: the stores in which a bridge has the slots of a forest.
#![tactic(auto)]

pub mod bare;
pub mod read;
pub mod run;

ghost use Rattle.std.specs.Prelude.{◌≡◌, ℕ, ◌^◌, ◌<◌, ◌≤◌, length};
ghost use Rattle.utreexo.specs.Forest.{Slots};
ghost use Rattle.keeper.specs.Calls.{coin_read, value_read, Appended, Blanked, Refilled, Cut};

use crate::run::Run;
use compression::Compression;
use refusal::Refusal;
use utreexo::types::{Coin, Slot, Value};

// A keeper means a list of slots and a capacity, the most slots that it can have, which never changes. Its values are under one
// compression.
// `same` stands in each change: it compares two states of a keeper, which no invariant can, and a name for it is no plainer.
pub trait Keeper<C: Compression> {
    ghost slots: { Self → Slots };

    ghost limit: { Self → ℕ };

    fn count(&self) -> u32
        ensures { result ≡ length (slots self.now) };

    fn capacity(&self) -> u32
        ensures { result ≡ limit self.now };

    // The coin of a slot; None if it is blank.
    fn coin(&self, slot: Slot) -> Result<Option<Coin>, Refusal>
        ensures { result ≡ coin_read (slots self.now) slot.number };

    // The value over a run; None if it is wholly blank.
    fn value(&self, run: Run) -> Result<Option<Value>, Refusal>
        ensures { result ≡ value_read C.Compression.image (slots self.now) run.row run.place };

    fn append(&mut self, coin: Coin) -> Result<(), Refusal>
        ensures after { Appended (slots self.old) (limit self.old) coin result (slots self.new) }
        ensures same { limit self.new ≡ limit self.old };

    // Empties a live slot.
    fn blank(&mut self, slot: Slot) -> Result<(), Refusal>
        ensures after { Blanked (slots self.old) slot.number result (slots self.new) }
        ensures same { limit self.new ≡ limit self.old };

    // Fills a blank slot.
    fn refill(&mut self, slot: Slot, coin: Coin) -> Result<(), Refusal>
        ensures after { Refilled (slots self.old) slot.number coin result (slots self.new) }
        ensures same { limit self.new ≡ limit self.old };

    // Drops the last slot, live or blank.
    fn cut(&mut self) -> Result<(), Refusal>
        ensures after { Cut (slots self.old) result (slots self.new) }
        ensures same { limit self.new ≡ limit self.old };

    ghost fits: { (k : Self) → length (slots k) ≤ limit k };

    ghost small: { (k : Self) → limit k < 2 ^ 32 };
}
