// The paths of the coins that stay.
ghost use Rattle.std.specs.Prelude.{◌≡◌, ◌≤◌, map, length, take};
ghost use Rattle.climb.specs.After.{look};
ghost use Rattle.shelf.specs.Held.{held_of};
ghost use Rattle.refresh.specs.Refreshed.{settled, refreshed_by};

use climb::after::AfterValues;
use place::{runs, sibling_place};
use shelf::close::close;
use shelf::held::Held;
use utreexo::types::Value;

// What the hash of a position becomes: the after-value, if the position is covered.
fn renew(after: &AfterValues, row: u8, place: u32, hash: Value) -> Option<Value>
    ensures { result ≡ settled (look after.now row place) hash }
{
    after.at(row, place).unwrap_or(Some(hash))
}

// Refreshes one coin in its own place: a hash whose position is covered gives way to the after-value, and where that is absent the hash and
// its bit are struck out. By index: the hashes that are kept move down in the array that is read.
fn refresh(held: &mut Held, after: &AfterValues)
    ensures { held_of held.new ≡ refreshed_by (look after.now) (held_of held.old) }
{
    let mut row = held.row;
    let mut place = held.place;
    let mut kept = 0;
    for i in 0..held.len {
        let sibling = sibling_place(runs(place, kept));
        match renew(after, row + kept, sibling, held.path[i as usize]) {
            Some(value) => {
                held.path[kept as usize] = value;
                kept += 1;
            }
            None => {
                place = close(place, kept);
                row += 1;
            }
        }
    }
    held.row = row;
    held.place = place;
    held.len = kept;
}

// Refreshes the coins of the shelf, which are the first `len` of the array. They are lent apart from the shelf. Tried: a part of the array
// that is a lent struct's field cannot be lent on.
pub(crate) fn refresh_all(coins: &mut [Held; 8], len: u8, after: &AfterValues)
    requires { len ≤ 8 }
    ensures refreshed { map held_of (take len coins.new) ≡ map (refreshed_by (look after.now)) (map held_of (take len coins.old)) }
    ensures eight { length coins.new ≡ 8 }
{
    for held in coins[..len as usize].iter_mut() {
        refresh(held, after);
    }
}
