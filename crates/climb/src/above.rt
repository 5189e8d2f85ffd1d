// How the items of one row make those of the next.
ghost use Rattle.std.specs.Prelude.{◌≡◌};
ghost use Rattle.climb.specs.Rows.{top, beside, twin, lone, spent_item, met, renew};
ghost use Rattle.targets.specs.Spends.{target_of};

use crate::item::Item;
use compression::{Compression, join};
use targets::spend::Spend;
use utreexo::types::Value;

// The item above two siblings.
pub(crate) fn above_two<C: Compression>(left: Item, right: Item) -> Item
    ensures { result ≡ twin C.Compression.image left right }
{
    Item {
        place: left.place / 2,
        claim: C::pair(left.claim, right.claim),
        left: join::<C>(left.left, right.left),
    }
}

// The item above one whose sibling is not covered: a hash claims the sibling's value, and stays.
pub(crate) fn above_one<C: Compression>(item: Item, hash: Value) -> Item
    ensures { result ≡ lone C.Compression.image item hash }
{
    let sibling = Item {
        place: item.place,
        claim: hash,
        left: Some(hash),
    };
    if item.place % 2 == 0 {
        above_two::<C>(item, sibling)
    } else {
        above_two::<C>(sibling, item)
    }
}

// The item of a target: its coin is claimed, and nothing is left.
pub(crate) fn spent_item<C: Compression>(spend: Spend) -> Item
    ensures { result ≡ spent_item C.Compression.image (target_of spend) }
{
    Item {
        place: spend.node.place,
        claim: C::leaf(spend.coin),
        left: None,
    }
}

// Whether the place is a root, in a row of so many places: there the last one is, if it has no sibling.
pub(crate) fn is_top(width: u32, place: u32) -> bool
    ensures { result ≡ top width place }
{
    width % 2 == 1 && place as u64 + 1 == width as u64
}

pub(crate) fn are_siblings(left: Item, right: Item) -> bool
    ensures { result ≡ beside left.place right.place }
{
    left.place % 2 == 0 && right.place == left.place + 1
}

// Whether the stored root of a row is the value claimed at the root's place, if that is covered.
pub(crate) fn meets_root(aside: Option<Item>, root: Option<Value>) -> bool
    ensures { result ≡ met aside root }
{
    aside.is_none_or(|item| root == Some(item.claim))
}

// What the stored root of a row becomes: the after-value, if its place is covered.
pub(crate) fn root_after(aside: Option<Item>, root: Option<Value>) -> Option<Value>
    ensures { result ≡ renew aside root }
{
    aside.map_or(root, |item| item.left)
}
