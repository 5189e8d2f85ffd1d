// The checks on a block that need no forest, or its count alone: the order of its targets, whether it is a card, and the limit on slots.
ghost use Rattle.std.specs.Prelude.{◌+◌, ◌≤◌, not, ◌&&◌, [], ◌∷◌, IfOk, ◌==◌, nat_lt};
ghost use Rattle.utreexo.specs.Blocks.{ascending};
ghost use Rattle.utreexo.specs.Checks.{cause, most_slots};
ghost use Rattle.block.specs.Compose.{numbers};
ghost use Rattle.utreexo.specs.Outcomes.{Judged};

use crate::entry::Counts;
use refusal::Refusal;
use utreexo::types::Position;

// The targets are strictly ascending.
pub fn check_ascending(targets: &[Position]) -> Result<(), Refusal>
    ensures { Judged (cause 4 (not (ascending (numbers targets.now))) ∷ []) (λ _. Unit {0}) result }
{
    if targets.is_sorted_by(|a, b| a.number < b.number) {
        Ok(())
    } else {
        Err(Refusal::TargetsNotAscending)
    }
}

// A card spends one coin and adds none.
pub fn check_card(counts: Counts) -> Result<(), Refusal>
    ensures { Judged (cause 5 (not (counts.spent == 1 && counts.coins == 0)) ∷ []) (λ _. Unit {0}) result }
{
    if counts.spent == 1 && counts.coins == 0 {
        Ok(())
    } else {
        Err(Refusal::NotACard)
    }
}

// Whether a forest of `count` slots has room for so many coins more.
pub fn check_limit(count: u32, coins: usize) -> Result<(), Refusal>
    ensures judged { Judged (cause 11 (nat_lt most_slots (count + coins)) ∷ []) (λ _. Unit {0}) result }
    ensures room { IfOk result (λ _. count + coins ≤ most_slots) }
{
    if coins > (u32::MAX - count) as usize {
        return Err(Refusal::TooManySlots);
    }
    Ok(())
}
