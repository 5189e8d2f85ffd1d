// Laying the table anew when R changes.
ghost use Rattle.std.specs.Prelude.{◌≡◌, ℕ, ◌+◌, ◌^◌, ◌≤◌, min, length};
ghost use Rattle.utreexo.specs.Forest.{rows as rows_of};
ghost use Rattle.full_keeper.specs.Table.{Laid};

use crate::layout::index_of;
use keeper::run::Run;
use utreexo::types::Value;

// Copies the values over the slots that both counts have to where they stand with the new count: in place, and with no compression.
pub(crate) fn relay(table: &mut [Option<Value>], old: u32, new: u32)
    requires { (2 ^ (rows_of old + 1) ≤ length table.old) × (2 ^ (rows_of new + 1) ≤ length table.old) }
    ensures { Laid (min old new) (rows_of old) (rows_of new) table.old table.new }
{
    let from = place::rows(old);
    let to = place::rows(new);
    if from == to {
        return;
    }
    let count = old.min(new) as usize;
    let last = from.min(to);
    // Rows are numbers, and the indices go by them, so a range is the plainest form.
    for done in 0..last {
        // Indices grow with R. The last row goes first if R grows, else the first, so that no entry is lost before it is copied.
        let row = if from < to { last - done } else { done + 1 };
        let run = Run { row, place: 0 };
        let start = index_of(from, run);
        let target = index_of(to, run);
        table.copy_within(start..start + (count >> row), target);
    }
}
