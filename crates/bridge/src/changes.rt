// Making a bridge, and the calls that change it.
ghost use Rattle.std.specs.Prelude.{◌≡◌, []};
ghost use Rattle.utreexo.specs.Checks.{step};
ghost use Rattle.utreexo.specs.Bridge.{bridge_take, bridge_take_back, bridge_step};
ghost use Rattle.utreexo.specs.Outcomes.{answer_of};
ghost use Rattle.bridge.specs.State.{bridge_of};

use crate::Bridge;
use crate::judge::judge;
use compression::Compression;
use keeper::Keeper;
use refusal::Refusal;
use std::marker::PhantomData;
use undo::changes::append_all;
use undo::mark::Mark;
use undo::marks::Marks;

impl<C: Compression, K: Keeper<C>> Bridge<C, K> {
    // A bridge of the keeper's slots, with no mark.
    pub fn new(keeper: K) -> Bridge<C, K>
        ensures { bridge_of result ≡ record { capacity = K.limit keeper; slots = K.slots keeper; marks = [] } }
    {
        Bridge {
            keeper,
            marks: Marks::new(),
            compression: PhantomData,
        }
    }

    // Takes a block: all checks come before the first change. The targets' slots are blanked, and each new coin gets a slot.
    pub fn take(&mut self, block: &[u8]) -> Result<(), Refusal>
        ensures { bridge_step C.Compression.image (bridge_take block.now) (bridge_of self.old) ≡ step (answer_of result) (bridge_of self.new) }
    {
        let taking = judge::<C, K>(&self.keeper, block)?;
        let mark = Mark::new(self.keeper.count(), taking.blanked.as_slice());
        mark.blank::<C, K>(&mut self.keeper);
        append_all::<C, K>(&mut self.keeper, taking.coins.as_slice());
        self.marks.push(mark);
        Ok(())
    }

    // Undoes the newest block.
    pub fn take_back(&mut self) -> Result<(), Refusal>
        ensures { bridge_step C.Compression.image bridge_take_back (bridge_of self.old) ≡ step (answer_of result) (bridge_of self.new) }
    {
        let Some(mark) = self.marks.pop() else {
            return Err(Refusal::NoMark);
        };
        mark.undo::<C, K>(&mut self.keeper);
        Ok(())
    }
}
