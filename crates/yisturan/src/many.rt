// The needed positions of any number of targets, found by going up from each. A block has at most 32 targets, and `targets` and `climb`
// take no more; a script may name more.
use block::checks::check_ascending;
use place::Node;
use refusal::Refusal;
use std::alloc::{AllocError, Global};
use std::collections::BTreeSet;
use utreexo::types::Position;

// Whether the place of a target is above that of another.
fn is_above_another(nodes: &[Node], node: Node) -> bool {
    nodes
        .iter()
        .any(|other| *other != node && place::is_beneath(*other, node))
}

fn check(targets: &[Position], nodes: &[Node]) -> Result<(), Refusal> {
    check_ascending(targets)?;
    if nodes.len() < targets.len() {
        return Err(Refusal::TargetOutsideForest);
    }
    if nodes.iter().any(|node| is_above_another(nodes, *node)) {
        return Err(Refusal::TargetAboveAnother);
    }
    Ok(())
}

// The position of the sibling of the place that lies so many rows above the node's, if that sibling is needed.
fn needed_at(count: u32, nodes: &[Node], node: Node, rows: u8) -> Option<Position> {
    let above = Node {
        row: node.row.checked_add(rows)?,
        place: place::runs(node.place, rows),
    };
    let sibling = place::sibling(count, above)?;
    if nodes
        .iter()
        .any(|target| place::is_beneath(*target, sibling))
    {
        return None;
    }
    place::position_of(count, sibling)
}

// Adds what one target needs, going up from it.
fn add_needed(
    numbers: &mut BTreeSet<u64>,
    count: u32,
    nodes: &[Node],
    node: Node,
) -> Result<(), AllocError> {
    for rows in 0..32 {
        if let Some(position) = needed_at(count, nodes, node, rows) {
            numbers.insert(position.number)?;
        }
    }
    Ok(())
}

fn collect(heap: Global, count: u32, nodes: &[Node]) -> Result<Vec<Position>, AllocError> {
    let mut numbers = BTreeSet::new(heap);
    for node in nodes {
        add_needed(&mut numbers, count, nodes, *node)?;
    }
    numbers
        .iter()
        .map(|number| Position { number: *number })
        .collect(heap)
}

// The needed positions, ascending, or the first of the refusals 4, 6 and 7.
pub(crate) fn needed(
    heap: Global,
    count: u32,
    targets: &[Position],
) -> Result<Result<Vec<Position>, Refusal>, AllocError> {
    let nodes = targets
        .iter()
        .filter_map(|target| place::locate(count, *target))
        .collect::<Vec<_>>(heap)?;
    match check(targets, nodes.as_slice()) {
        Ok(()) => Ok(Ok(collect(heap, count, nodes.as_slice())?)),
        Err(refusal) => Ok(Err(refusal)),
    }
}
