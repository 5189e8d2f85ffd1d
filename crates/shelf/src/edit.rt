// Coins put on the shelf and taken off it.
ghost use Rattle.std.specs.Prelude.{◌≡◌, ◌<◌, [], ◌∷◌, ◌++◌, length, IfErr, nat_le};
ghost use Rattle.std.specs.List.{remove};
ghost use Rattle.utreexo.specs.Checks.{cause};
ghost use Rattle.utreexo.specs.Outcomes.{Judged};
ghost use Rattle.shelf.specs.Held.{held_of, shelf_of};

use crate::held::Held;
use crate::table::Shelf;
use refusal::Refusal;

impl Shelf {
    // Puts a coin last.
    pub fn push(&mut self, held: Held) -> Result<(), Refusal>
        ensures answer { Judged (cause 13 (nat_le 8 (length (shelf_of self.old))) ∷ []) (λ _. shelf_of self.new ≡ shelf_of self.old ++ (held_of held ∷ [])) result }
        ensures refused { IfErr result (λ _. self.new ≡ self.old) }
    {
        if self.len >= 8 {
            return Err(Refusal::ShelfFull);
        }
        self.coins[self.len as usize] = held;
        self.len += 1;
        Ok(())
    }

    // Takes the coin of this number off, and closes the gap.
    pub(crate) fn remove(&mut self, index: usize)
        requires { index < length (shelf_of self.old) }
        ensures { shelf_of self.new ≡ remove (shelf_of self.old) index }
    {
        self.coins.copy_within(index + 1.., index);
        self.len -= 1;
    }
}
