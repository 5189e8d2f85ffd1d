// One row's step up.
ghost use Rattle.std.specs.Prelude.{◌≡◌, ◌+◌, ◌^◌, ◌<◌, ◌≤◌, true, ◌∷◌, map, length, None, MatchOption};
ghost use Rattle.inline_list.specs.InlineList.{listed};
ghost use Rattle.targets.specs.Spends.{targets};
ghost use Rattle.climb.specs.Rows.{beside, stepped, step, merge, left_of, spent_item};
ghost use Rattle.climb.specs.Held.{hashes_in, Counted, alone_item};

use crate::above::{above_one, above_two, are_siblings, is_top, spent_item};
use crate::hashes::Hashes;
use crate::item::{Item, Row};
use compression::Compression;
use targets::spend::Spend;

// The item's right sibling, if it is the first of those that come after it; and the others.
pub(crate) fn split_sibling(item: Item, after: &[Item]) -> Option<(Item, &[Item])>
    ensures { MatchOption result (alone_item item after.now ≡ true) (λ p. (after.now ≡ p.0 ∷ p.1.now) × (beside item.place p.0.place ≡ true)) }
{
    let (next, others) = after.split_first()?;
    if are_siblings(item, *next) {
        Some((*next, others))
    } else {
        None
    }
}

// Takes the items of a row of `width` places to the row above, from the left; the item of this row's root, if that is covered, has
// nothing above it and is the answer. A row is lent to be filled, here and below: one that is returned is on the stack several times.
pub(crate) fn step_row<C: Compression>(
    items: &[Item],
    width: u32,
    hashes: &mut Hashes,
    parents: &mut Row,
) -> Option<Item>
    requires { (length items.now ≤ 32) × (hashes.old.used < 2 ^ 32) }
    ensures made { stepped (listed parents.new) result hashes.new.used ≡ step C.Compression.image (hashes_in hashes.old.bytes.now) width hashes.old.used None items.now }
    ensures count { hashes.new.used ≤ hashes.old.used + length items.now }
    ensures bytes { hashes.new.bytes ≡ hashes.old.bytes }
    ensures room { length (listed parents.new) ≤ length items.now }
{
    parents.clear();
    let mut aside = None;
    let mut rest = items;
    while let Some((item, after)) = rest.split_first() {
        if is_top(width, item.place) {
            aside = Some(*item);
            rest = after;
        } else if let Some((sibling, others)) = split_sibling(*item, after) {
            parents.try_push(above_two::<C>(*item, sibling)).unwrap();
            rest = others;
        } else {
            let lone = above_one::<C>(*item, hashes.next());
            parents.try_push(lone).unwrap();
            rest = after;
        }
    }
    aside
}

// The items that come up from the row below, and the targets of this row, from the left. A merge takes two lists, of different lengths.
pub(crate) fn merge_row<C: Compression>(carried: &[Item], spends: &[Spend], row: &mut Row)
    requires { length carried.now + length spends.now ≤ 32 }
    ensures { listed row.new ≡ merge left_of carried.now (map (spent_item C.Compression.image) (targets spends.now)) }
{
    row.clear();
    let mut rest = carried;
    // There is room for all of them, so that no call can fail.
    for spend in spends {
        let left = rest
            .iter()
            .take_while(|item| item.place < spend.node.place)
            .count();
        let (before, after) = rest.split_at(left);
        row.try_extend_from_slice(before).unwrap();
        row.try_push(spent_item::<C>(*spend)).unwrap();
        rest = after;
    }
    row.try_extend_from_slice(rest).unwrap();
}

// How many targets are of this row, of those in front.
pub(crate) fn count_row(spends: &[Spend], row: u8) -> usize
    ensures { Counted row spends.now result }
{
    spends
        .iter()
        .take_while(|spend| spend.node.row == row)
        .count()
}
