// A coin on the shelf.
ghost use Rattle.std.specs.Prelude.{◌≡◌, ◌+◌, ◌≤◌, length};

use utreexo::types::{Coin, Value};

// A coin with its row and place, and its path, the lowest hash first.
// The path is an array with its length beside it: a state is copied as it is into the history, and an `ArrayVec` is no `Copy`.
#[derive(Clone, Copy)]
pub struct Held {
    pub coin: Coin,
    pub row: u8,
    pub place: u32,
    pub path: [Value; 31],
    pub len: u8,
    ghost fits: { row + len ≤ 31 },
    ghost full: { length path ≡ 31 },
}
