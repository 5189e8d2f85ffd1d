// A compression that works nothing out.
ghost use Rattle.utreexo.specs.Claims.{no_value};
ghost use Rattle.std.proofs.Common.{rules};

use compression::Compression;
use utreexo::types::{Coin, Value};

// Where positions alone are wanted, every value is zero, so that the rows of a climb cost no compression.
pub(crate) struct NoValues;

impl Compression for NoValues {
    // no script names it
    const NUMBER: u8 = 0;

    ghost NUMBER = { 0 };

    ghost image = { λ _. no_value };

    ghost fits = { Prim.search rules };

    fn leaf(_coin: Coin) -> Value {
        Value::default()
    }

    fn pair(_left: Value, _right: Value) -> Value {
        Value::default()
    }
}
