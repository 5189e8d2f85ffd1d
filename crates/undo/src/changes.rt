// Changes of a keeper's slots. Each is told to leave what cannot be changed, so none is refused.
ghost use Rattle.std.specs.Prelude.{◌≡◌, ◌∷◌, [], ◌++◌, map, take, Some, true};
ghost use Rattle.utreexo.specs.Bridge.{undone};
ghost use Rattle.undo.specs.Marks.{listed, blanked, undo_of, undoable, undone_by};

use crate::mark::Mark;
use compression::Compression;
use keeper::Keeper;
use utreexo::types::Coin;

// Appends the coins, as many of them as the keeper has room for.
pub fn append_all<C: Compression, K: Keeper<C>>(keeper: &mut K, coins: &[Coin])
    ensures after { K.slots keeper.new ≡ take (K.limit keeper.old) (K.slots keeper.old ++ map (λ c. Some c) coins.now) }
    ensures same { K.limit keeper.new ≡ K.limit keeper.old }
{
    for coin in coins {
        // A full keeper refuses it, and stays as it is.
        let _ = keeper.append(*coin);
    }
}

// Drops slots from the last on, until `count` are left.
fn cut_to<C: Compression, K: Keeper<C>>(keeper: &mut K, count: u32)
    ensures after { K.slots keeper.new ≡ take count (K.slots keeper.old) }
    ensures same { K.limit keeper.new ≡ K.limit keeper.old }
{
    for _ in count..keeper.count() {
        // There is a slot to drop, so it is not refused.
        let _ = keeper.cut();
    }
}

// Tried in the loops below: a flattened iterator, of which the check knows what it gave, but not at which place it stands.
impl Mark {
    // Blanks the slots of the mark.
    pub fn blank<C: Compression, K: Keeper<C>>(&self, keeper: &mut K)
        ensures after { K.slots keeper.new ≡ blanked (listed self.now) (K.slots keeper.old) }
        ensures same { K.limit keeper.new ≡ K.limit keeper.old }
    {
        for entry in &self.blanked {
            if let Some(blanked) = entry {
                // A slot that is blank already is refused, and stays so.
                let _ = keeper.blank(blanked.slot);
            }
        }
    }

    // Cuts the slots back to the count of the mark, and refills those that it blanked.
    pub fn undo<C: Compression, K: Keeper<C>>(&self, keeper: &mut K)
        ensures after { K.slots keeper.new ≡ undone_by self.now (K.slots keeper.old) }
        ensures undone { undoable (undo_of self.now ∷ []) (K.slots keeper.old) ≡ true → K.slots keeper.new ≡ undone (undo_of self.now) (K.slots keeper.old) }
        ensures same { K.limit keeper.new ≡ K.limit keeper.old }
    {
        cut_to(keeper, self.count);
        for entry in &self.blanked {
            if let Some(blanked) = entry {
                // A slot that is live already is refused, and keeps its coin.
                let _ = keeper.refill(blanked.slot, blanked.coin);
            }
        }
    }
}
