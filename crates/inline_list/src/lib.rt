// Lists of a fixed capacity that lie in the value itself and are copied as it is. The kit's `ArrayVec` cannot be copied, and neither can
// what holds one. Nothing here allocates.
#![tactic(auto)]

ghost use Rattle.std.specs.Prelude.{◌≡◌, ◌≤◌, length};

#[cfg(test)]
mod tests;

// At most `N` items. The places not used hold some item.
pub struct InlineList<T, const N: usize> {
    places: [T; N],
    len: usize,
    ghost few: { len ≤ N },
    ghost whole: { length places ≡ N },
}

impl<T: Copy, const N: usize> Copy for InlineList<T, N> {}

// There was no room.
#[derive(Clone, Copy, PartialEq, Eq, Debug)]
pub struct NoRoom;

mod methods;
