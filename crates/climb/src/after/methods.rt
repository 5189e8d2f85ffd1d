// An empty table of after-values, and looking one up.
ghost use Rattle.std.specs.Prelude.{◌≡◌, ◌≤◌, ℕ, [], None, length, slice_index_or};
ghost use Rattle.climb.specs.Rows.{lookup};
ghost use Rattle.climb.specs.After.{row_lists, look};

use super::AfterValues;
use crate::item::{Item, Row};
use inline_list::InlineList;
use std::alloc::AllocError;
use utreexo::types::Value;

// The item at a place of a row.
fn item_at(items: &[Item], place: u32) -> Option<Item>
    ensures { result ≡ lookup items.now place }
{
    items.iter().find(|item| item.place == place).copied()
}

impl AfterValues {
    // A table in which no place is covered.
    pub fn empty() -> AfterValues
        ensures { (row place : ℕ) → look result row place ≡ None }
    {
        let row = Row::new();
        AfterValues { rows: [row; 32] }
    }

    // The covered places of a row, from the left, with what is claimed there and what is left; none in a row past the last.
    pub fn row(&self, row: u8) -> &[Item]
        ensures items { result.now ≡ slice_index_or (row_lists self.now) row [] }
        ensures few { length result.now ≤ 32 }
    {
        self.rows
            .get(row as usize)
            .map_or(&[], InlineList::as_slice)
    }

    // The after-value of a covered place; None where the place is not covered.
    pub fn at(&self, row: u8, place: u32) -> Option<Option<Value>>
        ensures { result ≡ look self.now row place }
    {
        item_at(self.row(row), place).map(|item| item.left)
    }
}

// Written out, so that its promise is read here: a copy is the value itself.
impl Clone for AfterValues {
    ghost is_clone = { λ t u. u ≡ t };

    ghost is_infallible = { λ _. Unit {0} };

    fn clone(&self) -> Result<AfterValues, AllocError> {
        Ok(*self)
    }
}
