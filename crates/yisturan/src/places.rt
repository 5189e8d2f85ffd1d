// Script calls on positions.
use crate::arguments::{Argument, count, records};
use crate::fault::*;
use crate::many;
use answer::{Answer, Output, Shown};
use climb::needed::Needed;
use place::Node;
use refusal::Refusal;
use std::alloc::{AllocError, Global};
use targets::placed::Targets;
use utreexo::types::{Coin, Position};

// place #count,#position
pub(crate) fn locate(arguments: &[Argument]) -> Result<Answer, Fault> {
    let [Argument::Number(slots), Argument::Number(number)] = arguments else {
        return Err(Fault::Mismatched);
    };
    let count = count(*slots)?;
    let output = place::locate(count, Position { number: *number })
        .and_then(|node| place::root_position(count, node).map(|root| Output::Place(node, root)))
        .ok_or(Refusal::TargetOutsideForest);
    Ok(Answer::new(Shown::Nothing, output))
}

// The positions of places of the forest.
fn positions(heap: Global, count: u32, nodes: &[Node]) -> Result<Vec<Position>, AllocError> {
    nodes
        .iter()
        .filter_map(|node| place::position_of(count, *node))
        .collect(heap)
}

// The needed positions of at most 32 targets, or the first of the refusals 4, 6 and 7.
fn needed(
    heap: Global,
    count: u32,
    targets: &[Position],
) -> Result<Result<Vec<Position>, Refusal>, AllocError> {
    // No coin is looked at.
    let coins = vec![in heap; Coin::default(); targets.len()]?;
    match Targets::place(count, targets, coins.as_slice()) {
        Ok(targets) => {
            let needed = Needed::of(&targets);
            Ok(Ok(positions(heap, count, needed.as_slice())?))
        }
        Err(refusal) => Ok(Err(refusal)),
    }
}

// needed #count,positions
pub(crate) fn list_needed(heap: Global, arguments: &[Argument]) -> Result<Answer, Fault> {
    let [Argument::Number(slots), Argument::Bytes(bytes)] = arguments else {
        return Err(Fault::Mismatched);
    };
    let count = count(*slots)?;
    let targets = records::<Position, _>(heap, bytes.as_slice())?;
    let needed = if targets.len() > 32 {
        many::needed(heap, count, targets.as_slice())?
    } else {
        needed(heap, count, targets.as_slice())?
    };
    Ok(Answer::new(Shown::Nothing, needed.map(Output::Needed)))
}
