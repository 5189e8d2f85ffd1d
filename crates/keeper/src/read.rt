// Reading a keeper where there may be nothing to read: a refusal is no answer, so it is None too.
ghost use Rattle.std.specs.Prelude.{◌≡◌, ◌/◌, ◌^◌, ◌<◌, ◌≤◌, length, None, slice_index_or};
ghost use Rattle.utreexo.specs.Forest.{value_over};

use crate::Keeper;
use crate::run::Run;
use compression::Compression;
use utreexo::types::{Coin, Slot, Value};

// The coin of a slot; None if it is blank, and past the count.
pub fn coin_in<C: Compression, K: Keeper<C>>(keeper: &K, slot: Slot) -> Option<Coin>
    ensures { result ≡ slice_index_or (K.slots keeper.now) slot.number None }
{
    keeper.coin(slot).ok().flatten()
}

// The value over a run; None if it is wholly blank, and where the run is not within the count.
pub fn value_over<C: Compression, K: Keeper<C>>(keeper: &K, run: Run) -> Option<Value>
    ensures within { run.place < length (K.slots keeper.now) / 2 ^ run.row → result ≡ value_over C.Compression.image (K.slots keeper.now) run.row run.place }
    ensures past { length (K.slots keeper.now) / 2 ^ run.row ≤ run.place → result ≡ None }
{
    keeper.value(run).ok().flatten()
}
