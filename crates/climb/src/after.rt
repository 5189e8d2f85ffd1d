// The after-values of a block.
ghost use Rattle.std.specs.Prelude.{◌≡◌, length};

use crate::item::Row;

// The covered places, row by row.
#[derive(Copy)]
pub struct AfterValues {
    pub(crate) rows: [Row; 32],
    ghost whole: { length rows ≡ 32 },
}

mod methods;
