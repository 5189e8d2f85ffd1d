// What a block makes of a state. `taken` works on a copy, so that a refusal leaves all as it was; `checked` only reads.
ghost use Rattle.std.specs.Prelude.{◌≡◌};
ghost use Rattle.utreexo.specs.Outcomes.{Judged};
ghost use Rattle.utreexo.specs.Wallet.{take_causes, view_after};
ghost use Rattle.shelf.specs.Views.{view_of};

use block::checks::check_limit;
use climb::after::AfterValues;
use compression::Compression;
use grow::add_all;
use proof::judge::judge;
use proof::readable::Block;
use refresh::spend;
use refusal::Refusal;
use shelf::state::State;

// Whether a block can be taken.
pub(crate) fn checked<C: Compression>(state: &State, bytes: &[u8]) -> Result<(), Refusal>
    ensures { Judged (take_causes C.Compression.image (view_of state.now) bytes.now) (λ _. Unit {0}) result }
{
    let block = Block::read(bytes)?;
    let mut after = AfterValues::empty();
    judge::<C>(state.count, &state.roots, &block, &mut after)?;
    check_limit(state.count, block.counts().coins as usize)
}

// The state once a block is taken.
pub(crate) fn taken<C: Compression>(state: State, bytes: &[u8]) -> Result<State, Refusal>
    ensures { Judged (take_causes C.Compression.image (view_of state) bytes.now) (λ s. view_of s ≡ view_after C.Compression.image bytes.now (view_of state)) result }
{
    let block = Block::read(bytes)?;
    let mut after = AfterValues::empty();
    let accepted = judge::<C>(state.count, &state.roots, &block, &mut after)?;
    let mut next = state;
    spend(&mut next, &accepted.targets, &after, &accepted.roots);
    add_all::<C>(&mut next, block.coins().as_slice())?;
    Ok(next)
}
