// Making, reading and filling a list.
ghost use Rattle.std.specs.Prelude.{◌≡◌, ◌+◌, ◌<◌, ◌≤◌, ◌↔◌, [], ◌∷◌, ◌++◌, length, IsOk, OnOk, OnErr};
ghost use Rattle.inline_list.specs.InlineList.{listed};

use crate::{InlineList, NoRoom};
use std::alloc::AllocError;

impl<T: Copy + Default, const N: usize> InlineList<T, N> {
    // No item.
    pub fn new() -> Self
        ensures { listed result ≡ [] }
    {
        InlineList {
            places: [T::default(); N],
            len: 0,
        }
    }
}

impl<T: Copy, const N: usize> InlineList<T, N> {
    // The items, in order.
    pub fn as_slice(&self) -> &[T]
        ensures value { result.now ≡ listed self.now }
        ensures fits { length result.now ≤ N }
    {
        &self.places[..self.len]
    }

    // Takes all items out.
    pub fn clear(&mut self)
        ensures { listed self.new ≡ [] }
    {
        self.len = 0;
    }

    // Puts an item last, if there is room.
    pub fn try_push(&mut self, item: T) -> Result<(), NoRoom>
        ensures variant { IsOk result ↔ (length (listed self.old) < N) }
        ensures ok { OnOk result (listed self.new ≡ listed self.old ++ item ∷ []) }
        ensures err { OnErr result (self.new ≡ self.old) }
    {
        if self.len == N {
            return Err(NoRoom);
        }
        self.places[self.len] = item;
        self.len += 1;
        Ok(())
    }

    // Puts items last, if there is room for all.
    pub fn try_extend_from_slice(&mut self, others: &[T]) -> Result<(), NoRoom>
        ensures variant { IsOk result ↔ (length (listed self.old) + length others.now ≤ N) }
        ensures ok { OnOk result (listed self.new ≡ listed self.old ++ others.now) }
        ensures err { OnErr result (self.new ≡ self.old) }
    {
        if N - self.len < others.len() {
            return Err(NoRoom);
        }
        let end = self.len + others.len();
        let places = &mut self.places[..];
        places[self.len..end].copy_from_slice(others);
        self.len = end;
        Ok(())
    }
}

// By hand: a derive would clone item by item.
impl<T: Copy, const N: usize> Clone for InlineList<T, N> {
    ghost is_clone = { λ l m. m ≡ l };

    ghost is_infallible = { λ _. Unit {0} };

    fn clone(&self) -> Result<Self, AllocError> {
        Ok(*self)
    }
}
