// The calls.
ghost use Rattle.std.specs.Prelude.{◌≡◌, map, length, slice_get};
ghost use Rattle.utreexo.specs.Checks.{step};
ghost use Rattle.utreexo.specs.Outcomes.{answer_of, answered, Writes};
ghost use Rattle.utreexo.specs.Wallet.{position_of, new_wallet, take_block, check_block, watch as watch_card, let_go as let_go_of, show as show_at, take_back as take_last_back, wallet_step};
ghost use Rattle.utreexo.specs.Register.{new_register};
ghost use Rattle.utreexo.specs.Promise.{Faithful};
ghost use Rattle.place.specs.Nodes.{number_of};
ghost use Rattle.history.specs.Stack.{stack, newest_of, older};
ghost use Rattle.shelf.specs.Shown.{card_at};
ghost use Rattle.promise.specs.Agreement.{Agrees, Keeps};
ghost use Rattle.wallet.specs.State.{wallet_of, marked};

use crate::Wallet;
use crate::step::{checked, taken};
use crate::watch::watched;
use compression::Compression;
use history::{Ring, pop, push};
use refusal::Refusal;
use shelf::state::State;
use std::marker::PhantomData;
use utreexo::types::{Position, Value};

impl<'a, C: Compression> Wallet<'a, C> {
    // An empty wallet, with so many places for marks as the slice has, of which it uses 64 at most.
    pub fn new(marks: &'a mut [State]) -> Wallet<'a, C>
        ensures empty { wallet_of result ≡ new_wallet (length marks.old) }
        ensures agrees { Agrees C.Compression.image (wallet_of result) (new_register (length marks.old)) }
        ensures promise { Faithful C.Compression.image (length marks.old) }
    {
        Wallet {
            state: State::empty(),
            ring: Ring::new(),
            marks,
            compression: PhantomData,
        }
    }

    // Takes a block: the state before it becomes a mark.
    pub fn take(&mut self, block: &[u8]) -> Result<(), Refusal>
        ensures step { wallet_step C.Compression.image (take_block block.now) (wallet_of self.old) ≡ step (answer_of result) (wallet_of self.new) }
        ensures keeps { Keeps C.Compression.image (take_block block.now) (wallet_of self.old) (answer_of result) (wallet_of self.new) }
    {
        let next = taken::<C>(self.state, block)?;
        self.mark();
        self.state = next;
        Ok(())
    }

    // Puts the state before the marks.
    fn mark(&mut self)
        ensures { wallet_of self.new ≡ marked (wallet_of self.old) }
    {
        let mut ring = self.ring;
        push(self.marks, &mut ring, self.state);
        self.ring = ring;
    }

    // Answers as `take` would, and changes nothing.
    pub fn check(&self, block: &[u8]) -> Result<(), Refusal>
        ensures step { wallet_step C.Compression.image (check_block block.now) (wallet_of self.now) ≡ step (answer_of result) (wallet_of self.now) }
        ensures keeps { Keeps C.Compression.image (check_block block.now) (wallet_of self.now) (answer_of result) (wallet_of self.now) }
    {
        checked::<C>(&self.state, block)
    }

    // Puts the coin of a card on the shelf, as the last.
    pub fn watch(&mut self, card: &[u8]) -> Result<(), Refusal>
        ensures step { wallet_step C.Compression.image (watch_card card.now) (wallet_of self.old) ≡ step (answer_of result) (wallet_of self.new) }
        ensures keeps { Keeps C.Compression.image (watch_card card.now) (wallet_of self.old) (answer_of result) (wallet_of self.new) }
    {
        self.state = watched::<C>(self.state, card)?;
        Ok(())
    }

    // Takes the coin at a position off the shelf.
    pub fn let_go(&mut self, position: Position) -> Result<(), Refusal>
        ensures step { wallet_step C.Compression.image (let_go_of position.number) (wallet_of self.old) ≡ step (answer_of result) (wallet_of self.new) }
        ensures keeps { Keeps C.Compression.image (let_go_of position.number) (wallet_of self.old) (answer_of result) (wallet_of self.new) }
    {
        self.state.let_go(position)
    }

    // Writes the card of the coin at a position into the front of the output, and gives its length. A longer output keeps its tail.
    pub fn show(&self, position: Position, out: &mut [u8]) -> Result<usize, Refusal>
        ensures step { wallet_step C.Compression.image (show_at position.number out.old) (wallet_of self.now) ≡ step (answered result out.new) (wallet_of self.now) }
        ensures keeps { Keeps C.Compression.image (show_at position.number out.old) (wallet_of self.now) (answered result out.new) (wallet_of self.now) }
        ensures left { Writes (card_at (wallet_of self.now).view position.number) out.old out.new result }
    {
        self.state.show(position, out)
    }

    // Takes the newest taken block back: the newest mark becomes the state.
    pub fn take_back(&mut self) -> Result<(), Refusal>
        ensures step { wallet_step C.Compression.image take_last_back (wallet_of self.old) ≡ step (answer_of result) (wallet_of self.new) }
        ensures keeps { Keeps C.Compression.image take_last_back (wallet_of self.old) (answer_of result) (wallet_of self.new) }
    {
        let (newest, ring) = self.newest();
        let Some(state) = newest else {
            return Err(Refusal::NoMark);
        };
        self.ring = ring;
        self.state = state;
        Ok(())
    }

    // The newest mark, and the ring without it.
    fn newest(&self) -> (Option<State>, Ring)
        ensures newest { result.0 ≡ newest_of (stack self.now.marks.now self.now.ring) }
        ensures older { stack self.now.marks.now result.1 ≡ older (stack self.now.marks.now self.now.ring) }
    {
        let mut ring = self.ring;
        let newest = pop(self.marks, &mut ring);
        (newest, ring)
    }

    // How many slots the forest has.
    pub fn count(&self) -> u32
        ensures { result ≡ (wallet_of self.now).view.count }
    {
        self.state.count
    }

    // The roots by row; none where the count has no tree of the row, and none where that tree is blank.
    pub fn roots(&self) -> &[Option<Value>; 32]
        ensures { result.now ≡ (wallet_of self.now).view.roots }
    {
        &self.state.roots
    }

    // How many coins are on the shelf.
    pub fn shelf_len(&self) -> usize
        ensures { result ≡ length (wallet_of self.now).view.shelf }
    {
        self.state.shelf.as_slice().len()
    }

    // The position of the coin of this number on the shelf, counted from 0 in the order watched.
    pub fn position(&self, index: usize) -> Option<Position>
        ensures { let v = (wallet_of self.now).view in number_of result ≡ slice_get (map (position_of v.count) v.shelf) index }
    {
        self.state.position(index)
    }
}
