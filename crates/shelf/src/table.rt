// The shelf.
ghost use Rattle.std.specs.Prelude.{◌≡◌, ◌≤◌, length};

use crate::held::Held;

// The coins on the shelf in the order watched, at most 8. An array with its length beside it, for the reason that a path is.
#[derive(Clone, Copy)]
pub struct Shelf {
    pub coins: [Held; 8],
    pub len: u8,
    ghost few: { len ≤ 8 },
    ghost eight: { length coins ≡ 8 },
}
