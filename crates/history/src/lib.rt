// A history of marks in a slice that the caller lends: up to 64 of its places are used, in a circle. A slice of no place holds no mark.
#![tactic(auto)]

ghost use Rattle.std.specs.Prelude.{◌≡◌, ◌<◌};
ghost use Rattle.utreexo.specs.Checks.{push as pushed};
ghost use Rattle.history.specs.Stack.{room, stack, newest_of, older, Next};

// Which places of the slice hold marks: the newest mark is at `newest`, the older ones before it, and from the last place on after the
// first. Slice and ring stay apart, and no deque is used: who holds the marks lends them, and nothing is allocated.
#[derive(Clone, Copy, PartialEq, Eq, Debug)]
pub struct Ring {
    newest: usize,
    held: usize,
}

impl Ring {
    // No mark.
    pub fn new() -> Ring
        ensures { result.held ≡ 0 }
    {
        Ring { newest: 0, held: 0 }
    }
}

fn next_place(place: usize, places: usize) -> usize
    requires { 0 < places }
    ensures { Next places place result }
{
    if place < places - 1 { place + 1 } else { 0 }
}

fn place_before(place: usize, places: usize) -> usize
    requires { place < places }
    ensures { Next places result place }
{
    if place == 0 { places - 1 } else { place - 1 }
}

// Puts a mark before the others; where there is no room for all, the oldest is dropped.
pub fn push<M: Copy>(marks: &mut [M], ring: &mut Ring, mark: M)
    ensures { stack marks.new ring.new ≡ pushed (room marks.old) mark (stack marks.old ring.old) }
{
    let places = marks.len().min(64);
    if places > 0 {
        let next = next_place(ring.newest, places);
        let held = ring.held.min(places - 1) + 1;
        marks[next] = mark;
        ring.newest = next;
        ring.held = held;
    }
}

// Takes the newest mark off, if there is one.
pub fn pop<M: Copy>(marks: &[M], ring: &mut Ring) -> Option<M>
    ensures value { result ≡ newest_of (stack marks.now ring.old) }
    ensures after { stack marks.now ring.new ≡ older (stack marks.now ring.old) }
{
    let places = marks.len().min(64);
    let held = ring.held.min(places);
    if held == 0 {
        return None;
    }
    let newest = ring.newest.min(places - 1);
    let mark = marks[newest];
    ring.newest = place_before(newest, places);
    ring.held = held - 1;
    Some(mark)
}
