// Script calls on blocks as bytes.
use crate::arguments::{Argument, buffer, only_bytes, records};
use crate::fault::*;
use answer::{Answer, Output, Shown};
use block::{compose, read};
use std::alloc::Global;
use utreexo::types::{Coin, Position, Value};

// read block
pub(crate) fn read_counts(arguments: &[Argument]) -> Result<Answer, Fault> {
    let bytes = only_bytes(arguments)?;
    let output = read::check_length(bytes).map(Output::Counts);
    Ok(Answer::new(Shown::Nothing, output))
}

// entries block
pub(crate) fn list_entries(heap: Global, arguments: &[Argument]) -> Result<Answer, Fault> {
    let bytes = only_bytes(arguments)?;
    // A match is plainer than `map`: a refused block is not copied, and a `?` in a closure does not leave the function.
    let output = match read::check_length(bytes) {
        Ok(counts) => Ok(Output::Entries(counts, bytes.to_vec(heap)?)),
        Err(refusal) => Err(refusal),
    };
    Ok(Answer::new(Shown::Nothing, output))
}

// compose targets,spent,hashes,new,#length
pub(crate) fn compose_block(heap: Global, arguments: &[Argument]) -> Result<Answer, Fault> {
    let [
        Argument::Bytes(targets),
        Argument::Bytes(spent),
        Argument::Bytes(hashes),
        Argument::Bytes(coins),
        Argument::Number(length),
    ] = arguments
    else {
        return Err(Fault::Mismatched);
    };
    let targets = records::<Position, _>(heap, targets.as_slice())?;
    let spent = records::<Coin, _>(heap, spent.as_slice())?;
    let hashes = records::<Value, _>(heap, hashes.as_slice())?;
    let coins = records::<Coin, _>(heap, coins.as_slice())?;
    let mut out = buffer(heap, *length)?;
    let composed = compose::compose(
        targets.as_slice(),
        spent.as_slice(),
        hashes.as_slice(),
        coins.as_slice(),
        out.as_mut_slice(),
    );
    Ok(Answer {
        refusal: composed.err(),
        shown: Shown::Nothing,
        output: Output::Buffer(out),
    })
}
