// What a wallet's calls ask of a state.
ghost use Rattle.std.specs.Prelude.{◌≡◌, [], ◌∷◌, map, not, IfErr, slice_get};
ghost use Rattle.utreexo.specs.Blocks.{composed};
ghost use Rattle.utreexo.specs.Checks.{cause, compose as composing};
ghost use Rattle.utreexo.specs.Outcomes.{Judged, answered, Writes};
ghost use Rattle.utreexo.specs.Wallet.{position_of, on_shelf, with_shelf, drop_first, shown};
ghost use Rattle.place.specs.Nodes.{number_of};
ghost use Rattle.shelf.specs.Held.{held_of, shelf_of};
ghost use Rattle.shelf.specs.Finding.{has_position};
ghost use Rattle.shelf.specs.Views.{view_of};
ghost use Rattle.shelf.specs.Shown.{card_at};

use crate::held::Held;
use crate::state::State;
use block::compose::compose;
use refusal::Refusal;
use utreexo::types::Position;

impl Held {
    // Writes the block that spends the coin alone, at this position, and adds none.
    fn write_card(&self, position: Position, out: &mut [u8]) -> Result<usize, Refusal>
        ensures answer { answered result out.new ≡ composing (position.number ∷ []) (self.now.coin ∷ []) (held_of self.now).path [] out.old }
        ensures left { Writes (composed (record { targets = position.number ∷ []; spent = self.now.coin ∷ []; hashes = (held_of self.now).path; coins = [] })) out.old out.new result }
    {
        compose(&[position], &[self.coin], self.path(), &[], out)
    }
}

impl State {
    // The position of the coin of this number, counted from 0 in the order watched.
    pub fn position(&self, index: usize) -> Option<Position>
        ensures { number_of result ≡ slice_get (map (position_of self.now.count) (shelf_of self.now.shelf)) index }
    {
        let count = self.count;
        let held = self.shelf.as_slice().get(index)?;
        place::position_of(count, held.node())
    }

    // Takes the coin at a position off the shelf.
    pub fn let_go(&mut self, position: Position) -> Result<(), Refusal>
        ensures answer { Judged (cause 15 (not (on_shelf self.old.count (shelf_of self.old.shelf) position.number)) ∷ []) (λ _. view_of self.new ≡ with_shelf (view_of self.old) (drop_first (has_position self.old.count position.number) (shelf_of self.old.shelf))) result }
        ensures refused { IfErr result (λ _. self.new ≡ self.old) }
    {
        let Some(index) = self.find(position) else {
            return Err(Refusal::NotOnShelf);
        };
        self.shelf.remove(index);
        Ok(())
    }

    // Writes the card of the coin at a position into the front of the output, and gives its length. A longer output keeps its tail.
    pub fn show(&self, position: Position, out: &mut [u8]) -> Result<usize, Refusal>
        ensures answer { answered result out.new ≡ shown (view_of self.now) position.number out.old }
        ensures left { Writes (card_at (view_of self.now) position.number) out.old out.new result }
    {
        let Some(index) = self.find(position) else {
            return Err(Refusal::NotOnShelf);
        };
        self.shelf.coins[index].write_card(position, out)
    }
}
