// The coins of the shelf when two trees become one.
ghost use Rattle.std.specs.Prelude.{◌≡◌, ◌<◌, map};
ghost use Rattle.utreexo.specs.Wallet.{tree_joined};
ghost use Rattle.shelf.specs.Held.{held_of};
ghost use Rattle.grow.specs.Grown.{other};

use shelf::close::close;
use shelf::held::Held;
use utreexo::types::Value;

// The root of the other tree, for a coin whose tree is that of place `top`: the left one, if the place is even.
fn other_root(top: u32, left: Option<Value>, right: Option<Value>) -> Option<Value>
    ensures { result ≡ other top left right }
{
    if top % 2 == 0 { right } else { left }
}

// A coin of the shelf, when the two trees of a row with these roots become one: if it is in either, the other's root goes on top of its
// path, or where that is blank the coin rises a row.
fn join_coin(held: &mut Held, row: u8, left: Option<Value>, right: Option<Value>)
    requires { row < 31 }
    ensures { held_of held.new ≡ tree_joined row left right (held_of held.old) }
{
    let len = held.len;
    if held.row + len != row {
        return;
    }
    match other_root(place::runs(held.place, len), left, right) {
        Some(root) => {
            held.path[len as usize] = root;
            held.len = len + 1;
        }
        None => {
            held.place = close(held.place, len);
            held.row += 1;
        }
    }
}

// Several coins of the shelf, when two trees become one.
pub(crate) fn join_coins(coins: &mut [Held], row: u8, left: Option<Value>, right: Option<Value>)
    requires { row < 31 }
    ensures { map held_of coins.new ≡ map (tree_joined row left right) (map held_of coins.old) }
{
    for held in coins {
        join_coin(held, row, left, right);
    }
}
