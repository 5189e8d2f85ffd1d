// Compressions: what gives each input one image.
#![tactic(auto)]

pub mod hash;
pub mod tally;
#[cfg(test)]
mod tests;

ghost use Rattle.std.specs.Prelude.{◌≡◌, ℕ};
ghost use Rattle.utreexo.specs.declared.types.Input.{Input};
ghost use Rattle.utreexo.specs.declared.types.Input.TheVariants.{Leaf, Pair};
ghost use Rattle.utreexo.specs.declared.types.Value.{Value};
ghost use Rattle.utreexo.specs.Values.{ImageFits, join as joined};

use utreexo::types::{Coin, Value};

// A compression has no value of its own: its functions stand alone, and whoever uses one names its type.
pub trait Compression {
    // The number by which a script or a file names the compression: a constant, by a rule of the project.
    const NUMBER: u8;

    ghost NUMBER: { ℕ };

    // The written meaning: the image of each input.
    ghost image: { Input → Value };

    fn leaf(coin: Coin) -> Value
        ensures { result ≡ image (Leaf coin) };

    fn pair(left: Value, right: Value) -> Value
        ensures { result ≡ image (Pair left right) };

    // An input of 64-bit words has an image of 64-bit words, so that a value is the same before and after it is written as bytes.
    ghost fits: { ImageFits image };
}

// The value over a run from the values over its halves: a blank half gives way to the other.
pub fn join<C: Compression>(left: Option<Value>, right: Option<Value>) -> Option<Value>
    ensures { result ≡ joined C.Compression.image left right }
{
    match (left, right) {
        (None, only) => only,
        (only, None) => only,
        (Some(l), Some(r)) => Some(C::pair(l, r)),
    }
}
