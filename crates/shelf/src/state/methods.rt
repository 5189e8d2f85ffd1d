// Making a state.
ghost use Rattle.std.specs.Prelude.{◌≡◌};
ghost use Rattle.utreexo.specs.Wallet.{empty_view};
ghost use Rattle.shelf.specs.Views.{view_of};

use super::State;
use crate::held::Held;
use crate::table::Shelf;
use utreexo::types::{Coin, Value};

impl State {
    // No slot, and no coin on the shelf.
    pub fn empty() -> State
        ensures { view_of result ≡ empty_view }
    {
        let none = Held {
            coin: Coin::default(),
            row: 0,
            place: 0,
            path: [Value::default(); 31],
            len: 0,
        };
        State {
            count: 0,
            roots: [None; 32],
            shelf: Shelf {
                coins: [none; 8],
                len: 0,
            },
        }
    }
}
