// Where the values stand in the table, and how those over one slot are worked out anew. By a rule of the project the table is numbered as
// positions are, so it is read by index.
ghost use Rattle.std.specs.Prelude.{◌≡◌, ℕ, ◌+◌, ◌^◌, ◌<◌, ◌≤◌, length};
ghost use Rattle.utreexo.specs.Forest.{rows as rows_of};
ghost use Rattle.full_keeper.specs.Table.{index, AtPositions, StoredBut};

use compression::{Compression, join};
use keeper::run::{Run, leaf_value};
use utreexo::types::{Coin, Value};

// Where the value over a run stands, with `rows` rows above the slots. `place` has the formula for positions in 64 bits by the count; one
// for both would be no plainer.
pub(crate) fn index_of(rows: u8, run: Run) -> usize
    requires { (rows ≤ 32) × ((run.row ≤ rows) × (run.place < 2 ^ 33)) }
    ensures { result ≡ index rows run.row run.place }
{
    (2usize << rows) - (2usize << (rows - run.row)) + run.place as usize
}

// Works out the value over each run that holds the slot, from below, up to the first row where that run passes the count.
pub(crate) fn update_path<C: Compression>(
    table: &mut [Option<Value>],
    slots: &[Option<Coin>],
    slot: usize,
)
    requires slot { slot < length slots.now }
    requires few { length slots.now < 2 ^ 32 }
    requires room { 2 ^ (rows_of (length slots.now) + 1) ≤ length table.old }
    ensures { StoredBut C.Compression.image slots.now (rows_of (length slots.now)) table.old slot 0 → AtPositions C.Compression.image slots.now table.new }
{
    let count = slots.len() as u32;
    let rows = place::rows(count);
    table[slot] = leaf_value::<C>(slots[slot]);
    // Rows are numbers, and the indices go by them, so a range is the plainest form.
    for row in 1..=rows {
        let run = Run {
            row,
            place: (slot >> row) as u64,
        };
        if !run.is_within(count) {
            break;
        }
        // It has a row below, so there are halves.
        let Some((left, right)) = run.halves() else {
            break;
        };
        let left = table[index_of(rows, left)];
        let right = table[index_of(rows, right)];
        table[index_of(rows, run)] = join::<C>(left, right);
    }
}
