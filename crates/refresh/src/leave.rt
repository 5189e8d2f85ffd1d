// The coins that leave the shelf.
ghost use Rattle.std.specs.Prelude.{◌≡◌};
ghost use Rattle.utreexo.specs.Lists.{filter};
ghost use Rattle.utreexo.specs.Claims.{beneath};
ghost use Rattle.utreexo.specs.Wallet.{leaves_shelf};
ghost use Rattle.place.specs.Nodes.{node_of};
ghost use Rattle.targets.specs.Spends.{targets};
ghost use Rattle.shelf.specs.Held.{held_of, shelf_of};
ghost use Rattle.refresh.specs.Spent.{stays};

use place::is_beneath;
use shelf::held::Held;
use shelf::table::Shelf;
use targets::spend::Spend;

// Whether a coin's position is covered, so at a target or above one, or is beneath a target.
fn is_spent(held: &Held, spends: &[Spend]) -> bool
    ensures { result ≡ leaves_shelf (targets spends.now) (held_of held.now) }
{
    let node = held.node();
    spends.iter().any(|spend| is_beneath(spend.node, node) || is_beneath(node, spend.node))
}

// Takes the coins that leave off the shelf. By index: those that stay move down in the array that is read.
pub(crate) fn drop_spent(shelf: &mut Shelf, spends: &[Spend])
    ensures { shelf_of shelf.new ≡ filter (stays (targets spends.now)) (shelf_of shelf.old) }
{
    let mut kept = 0;
    for i in 0..shelf.len {
        let held = shelf.coins[i as usize];
        if !is_spent(&held, spends) {
            shelf.coins[kept as usize] = held;
            kept += 1;
        }
    }
    shelf.len = kept;
}
