// The needed positions of a block.
use inline_list::InlineList;
use place::Node;

// The places of the needed positions, ascending: at most 32 in each of the 32 rows.
#[derive(Clone, Copy)]
pub struct Needed {
    nodes: InlineList<Node, 1024>,
}

mod methods;
