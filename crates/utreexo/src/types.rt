// The records of the forest.
// A coin: 32 bytes, as four words with the lowest byte first.
#[derive(Clone, Copy, PartialEq, Eq, Default, Debug)]
pub struct Coin {
    pub w0: u64,
    pub w1: u64,
    pub w2: u64,
    pub w3: u64,
}

// A value: the image of an input, 32 bytes in the same form. It is a type of its own, so that no coin is taken for a value;
// one type with a marker would be no plainer, since every definition would name the marker.
#[derive(Clone, Copy, PartialEq, Eq, Default, Debug)]
pub struct Value {
    pub w0: u64,
    pub w1: u64,
    pub w2: u64,
    pub w3: u64,
}

// What a compression takes: one coin, or a left and a right value.
#[derive(Clone, Copy, PartialEq, Eq, Debug)]
pub enum Input {
    Leaf(Coin),
    Pair(Value, Value),
}

// The number of a slot. Every coin ever made has a slot; a spent one is blank.
#[derive(Clone, Copy, PartialEq, Eq, Debug)]
pub struct Slot {
    pub number: u32,
}

// The number of a place in the forest, which is no slot number: only the position rule leads from one to the other.
#[derive(Clone, Copy, PartialEq, Eq, Default, Debug)]
pub struct Position {
    pub number: u64,
}
