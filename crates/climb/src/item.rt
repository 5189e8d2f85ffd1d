// What a proof claims of one place.
use inline_list::InlineList;
use utreexo::types::Value;

// A covered place of a row: the value that is claimed there, and the after-value, which is left once the targets are spent.
#[derive(Clone, Copy, Default)]
pub struct Item {
    pub place: u32,
    pub claim: Value,
    pub left: Option<Value>,
}

// The covered places of one row: at most 32, since each has a target at it or beneath it.
pub(crate) type Row = InlineList<Item, 32>;
