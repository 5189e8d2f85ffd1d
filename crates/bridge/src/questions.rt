// What a bridge tells of its forest.
ghost use Rattle.std.specs.Prelude.{◌≡◌, ◌≢◌, ◌↔◌, Some, None, length, IfErr, IsTrue, slice_index_or};
ghost use Rattle.utreexo.specs.Bridge.{Found};
ghost use Rattle.utreexo.specs.Forest.{roots_of};
ghost use Rattle.utreexo.specs.Collection.{held_at, card_bytes, card as card_answer, challenge as challenge_of};
ghost use Rattle.refusal.specs.Numbers.{number};
ghost use Rattle.challenge.specs.Verdicts.{judged};
ghost use Rattle.utreexo.specs.Outcomes.{answered, Writes};
ghost use Rattle.bridge.specs.State.{number_in, LooksUp};

use crate::Bridge;
use challenge::verdict::Verdict;
use compression::Compression;
use keeper::Keeper;
use keeper::read::coin_in;
use refusal::Refusal;
use utreexo::types::{Coin, Slot, Value};

impl<C: Compression, K: Keeper<C>> Bridge<C, K> {
    // The number of slots.
    pub fn count(&self) -> u32
        ensures { result ≡ length (K.slots self.now.keeper) }
    {
        self.keeper.count()
    }

    // The roots by row; none where the count has no tree of the row, and none where that tree is blank.
    pub fn roots(&self) -> [Option<Value>; 32]
        ensures { result ≡ roots_of C.Compression.image (K.slots self.now.keeper) }
    {
        own::roots::<C, K>(&self.keeper)
    }

    // Whether a slot holds a coin.
    fn holds(&self, slot: Slot, coin: Coin) -> bool
        ensures { IsTrue result ↔ (slice_index_or (K.slots self.now.keeper) slot.number None ≡ Some coin) }
    {
        coin_in::<C, K>(&self.keeper, slot) == Some(coin)
    }

    // Some live slot that holds the coin; None exactly if there is none.
    pub fn find(&self, coin: Coin) -> Option<Slot>
        ensures { Found (K.slots self.now.keeper) coin (number_in result) }
    {
        let number = (0..self.keeper.count()).find(|number| self.holds(
            Slot { number: *number },
            coin,
        ))?;
        Some(Slot { number })
    }

    // Writes the card of a slot, with a fresh proof.
    pub fn card(&self, slot: Slot, out: &mut [u8]) -> Result<usize, Refusal>
        ensures answer { answered result out.new ≡ card_answer C.Compression.image (K.slots self.now.keeper) slot.number out.old }
        ensures left { Writes (card_bytes (length (K.slots self.now.keeper)) (held_at C.Compression.image (K.slots self.now.keeper) slot.number)) out.old out.new result }
    {
        card::card::<C, K>(&self.keeper, slot, out)
    }

    // Finds a slot that holds the coin, and writes its card.
    pub fn look_up(&self, coin: Coin, out: &mut [u8]) -> Result<usize, Refusal>
        ensures { LooksUp C.Compression.image (K.slots self.now.keeper) coin out.old out.new result }
    {
        let Some(slot) = self.find(coin) else {
            return Err(Refusal::NotFound);
        };
        self.card(slot, out)
    }

    // Judges a block that is in dispute: whether its claims are those of the forest's own slots, and if not, the first that differs, from
    // the highest position down. It never refuses for the limit on the count.
    pub fn challenge(&self, block: &[u8]) -> Result<Verdict, Refusal>
        ensures verdict { judged result ≡ challenge_of C.Compression.image (K.slots self.now.keeper) block.now }
        ensures limit { IfErr result (λ e. number e ≢ 11) }
    {
        challenge::challenge::<C, K>(&self.keeper, block)
    }
}
