// Writing blocks.
ghost use Rattle.std.specs.Prelude.{◌≡◌, ◌≤◌, length};
ghost use Rattle.utreexo.specs.Blocks.{composed};
ghost use Rattle.utreexo.specs.Collection.{coins_at, block_for, write_causes, write as written};
ghost use Rattle.utreexo.specs.Outcomes.{Judged, answered, Writes};
ghost use Rattle.block.specs.Compose.{numbers};
ghost use Rattle.bridge.specs.Spends.{coin_having, coin_or, lacks, Spends};

use crate::Bridge;
use crate::fresh::fresh_hashes;
use arrayvec::ArrayVec;
use block::checks::check_limit;
use block::compose::compose;
use compression::Compression;
use keeper::Keeper;
use own::coin_at;
use place::locate;
use refusal::Refusal;
use targets::placed::Targets;
use utreexo::types::{Coin, Position, Value};

// What a block that is to be written has beside its positions and new coins.
#[derive(Drop)]
struct Spending {
    spent: ArrayVec<Coin, 32>,
    hashes: ArrayVec<Value, 992>,
}

// The coin that has a position; None where no coin has it, and outside the forest.
fn coin_having<C: Compression, K: Keeper<C>>(keeper: &K, position: Position) -> Option<Coin>
    ensures { result ≡ coin_having C.Compression.image (K.slots keeper.now) position.number }
{
    coin_at::<C, K>(keeper, locate(keeper.count(), position)?)
}

// Whether no coin has a position.
fn lacks<C: Compression, K: Keeper<C>>(keeper: &K, position: Position) -> bool
    ensures { result ≡ lacks C.Compression.image (K.slots keeper.now) position.number }
{
    coin_having::<C, K>(keeper, position).is_none()
}

// The coin of a position, or zero where it has none.
fn or_zero(coin: Option<Coin>) -> Coin
    ensures { result ≡ coin_or coin }
{
    coin.unwrap_or_default()
}

// The coins that have these positions.
fn coins_at<C: Compression, K: Keeper<C>>(keeper: &K, positions: &[Position]) -> ArrayVec<Coin, 32>
    requires { length positions.now ≤ 32 }
    ensures { result.items ≡ coins_at C.Compression.image (K.slots keeper.now) (numbers positions.now) }
{
    let mut coins = ArrayVec::new();
    for position in positions {
        coins.push(or_zero(coin_having::<C, K>(keeper, *position)));
    }
    coins
}

// Checks 2, 4, 6, 7, 11 and 16, each over all positions before the next, and what the block is to have.
fn spend<C: Compression, K: Keeper<C>>(
    keeper: &K,
    positions: &[Position],
    coins: &[Coin],
) -> Result<Spending, Refusal>
    ensures { Judged (write_causes C.Compression.image (K.slots keeper.now) (numbers positions.now) coins.now) (Spends C.Compression.image (K.slots keeper.now) (numbers positions.now)) result }
{
    if positions.len() > 32 || coins.len() > 32 {
        return Err(Refusal::OverLimit);
    }
    let spent = coins_at::<C, K>(keeper, positions);
    let count = keeper.count();
    let targets = Targets::place(count, positions, spent.as_slice())?;
    check_limit(count, coins.len())?;
    if positions
        .iter()
        .any(|position| lacks::<C, K>(keeper, *position))
    {
        return Err(Refusal::NotFound);
    }
    let hashes = fresh_hashes::<C, K>(keeper, &targets);
    Ok(Spending { spent, hashes })
}

impl<C: Compression, K: Keeper<C>> Bridge<C, K> {
    // Writes the block that spends the coins at these positions, with a fresh proof, and adds the new coins.
    pub fn write(
        &self,
        positions: &[Position],
        coins: &[Coin],
        out: &mut [u8],
    ) -> Result<usize, Refusal>
        ensures answer { answered result out.new ≡ written C.Compression.image (K.slots self.now.keeper) (numbers positions.now) coins.now out.old }
        ensures left { Writes (composed (block_for C.Compression.image (K.slots self.now.keeper) (numbers positions.now) coins.now)) out.old out.new result }
    {
        let spending = spend::<C, K>(&self.keeper, positions, coins)?;
        compose(
            positions,
            spending.spent.as_slice(),
            spending.hashes.as_slice(),
            coins,
            out,
        )
    }
}
