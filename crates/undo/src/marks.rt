// The marks of a bridge.
ghost use Rattle.std.specs.Prelude.{◌≡◌, []};
ghost use Rattle.utreexo.specs.Checks.{push as pushed};
ghost use Rattle.history.specs.Stack.{newest_of, older};
ghost use Rattle.undo.specs.Marks.{undo_of, undo_in, marks_of};

use crate::mark::Mark;
use history::Ring;

// The places of 64 marks and the ring that goes round in them. A plain table, so that it can lend its places to the history.
#[derive(Drop)]
pub struct Marks {
    places: [Mark; 64],
    ring: Ring,
}

impl Marks {
    // No mark.
    pub fn new() -> Marks
        ensures { marks_of result ≡ [] }
    {
        Marks {
            places: [Mark::new(0, &[]); 64],
            ring: Ring::new(),
        }
    }

    // Puts a mark before the others; the oldest of 64 is dropped.
    pub fn push(&mut self, mark: Mark)
        ensures { marks_of self.new ≡ pushed 64 (undo_of mark) (marks_of self.old) }
    {
        history::push(&mut self.places, &mut self.ring, mark);
    }

    // Takes the newest mark off, if there is one.
    pub fn pop(&mut self) -> Option<Mark>
        ensures value { undo_in result ≡ newest_of (marks_of self.old) }
        ensures after { marks_of self.new ≡ older (marks_of self.old) }
    {
        history::pop(&self.places, &mut self.ring)
    }
}
