// Count, roots and shelf.
ghost use Rattle.std.specs.Prelude.{◌≡◌, false, length};
ghost use Rattle.shelf.specs.Held.{shelf_of, astray};

use crate::table::Shelf;
use utreexo::types::Value;

// What a wallet knows of the forest, and a mark of its history. The roots go by row: none where the count has no tree of the row, and
// none where that tree is blank.
#[derive(Clone, Copy)]
pub struct State {
    pub count: u32,
    pub roots: [Option<Value>; 32],
    pub shelf: Shelf,
    ghost rows: { length roots ≡ 32 },
    ghost standing: { astray count (shelf_of shelf) ≡ false },
}

mod methods;
