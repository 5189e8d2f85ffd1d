// One target of a block.
use inline_list::InlineList;
use place::Node;
use utreexo::types::Coin;

// A target: its place, and the coin that it names, which is to be spent.
#[derive(Clone, Copy, Default)]
pub struct Spend {
    pub node: Node,
    pub coin: Coin,
}

// The targets of a block: at most 32.
pub(crate) type Spends = InlineList<Spend, 32>;
