// One coin more.
ghost use Rattle.std.specs.Prelude.{◌≡◌, ◌+◌, ◌<◌};
ghost use Rattle.utreexo.specs.Checks.{most_slots};
ghost use Rattle.shelf.specs.Views.{view_of};
ghost use Rattle.grow.specs.Grown.{added};

use crate::joined::join_coins;
use compression::{Compression, join};
use shelf::state::State;
use shelf::table::Shelf;
use utreexo::types::Coin;

// Puts a coin in the next slot. Its leaf is a tree of row 0 to the right of the others, and is joined with the tree of its row while
// the count has one: so in the rows of the ones at the count's low end. Roots and coins are copies until all are joined, since only
// then each coin of the shelf is in a tree of the count.
pub(crate) fn add_coin<C: Compression>(state: &mut State, coin: Coin)
    requires { state.old.count < most_slots }
    ensures view { view_of state.new ≡ added C.Compression.image (view_of state.old) coin }
    ensures count { state.new.count ≡ state.old.count + 1 }
{
    let mut roots = state.roots;
    let mut coins = state.shelf.coins;
    let len = state.shelf.len;
    let joined = state.count.trailing_ones() as usize;
    let mut root = Some(C::leaf(coin));
    for (row, stored) in roots[..joined].iter_mut().enumerate() {
        let left = stored.take();
        join_coins(&mut coins[..len as usize], row as u8, left, root);
        root = join::<C>(left, root);
    }
    roots[joined] = root;
    *state = State {
        count: state.count + 1,
        roots,
        shelf: Shelf { coins, len },
    };
}
