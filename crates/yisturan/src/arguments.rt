// The arguments of a call: numbers and bytes, separated by commas.
use crate::fault::*;
use crate::hex;
use std::alloc::{AllocError, Global};
use utreexo::record::Record;
use utreexo::types::Coin;

// A number is written `#` and decimal digits, bytes as hexadecimal digits.
#[derive(Drop)]
pub(crate) enum Argument {
    Number(u64),
    Bytes(Vec<u8>),
}

fn read_one(heap: Global, text: &str) -> Result<Argument, Fault> {
    match text.strip_prefix("#") {
        // A plus sign, which `parse` takes, is no digit.
        Some(decimal) if decimal.starts_with("+") => Err(Fault::Unreadable),
        Some(decimal) => {
            let number = decimal.parse().map_err(|_| Fault::Unreadable)?;
            Ok(Argument::Number(number))
        }
        None => Ok(Argument::Bytes(hex::read(heap, text)?)),
    }
}

// Output buffers are filled with this byte before a call, so that a reader sees what was left alone.
const FILL: u8 = 0xee;

// An output buffer.
pub(crate) fn buffer(heap: Global, length: u64) -> Result<Vec<u8>, AllocError> {
    vec![in heap; FILL; length as usize]
}

// All arguments of a call. The text `-` has none.
pub(crate) fn read(heap: Global, text: &str) -> Result<Vec<Argument>, Fault> {
    if text == "-" {
        return Ok(Vec::new(heap));
    }
    text.split(',')
        .map(|part| read_one(heap, part))
        .try_collect(heap)
}

// The bytes of a call that takes bytes alone.
pub(crate) fn only_bytes(arguments: &[Argument]) -> Result<&[u8], Fault> {
    let [Argument::Bytes(bytes)] = arguments else {
        return Err(Fault::Mismatched);
    };
    Ok(bytes.as_slice())
}

// The number of a call that takes a number alone.
pub(crate) fn only_number(arguments: &[Argument]) -> Result<u64, Fault> {
    let [Argument::Number(number)] = arguments else {
        return Err(Fault::Mismatched);
    };
    Ok(*number)
}

// A call that takes no argument has none.
pub(crate) fn no_arguments(arguments: &[Argument]) -> Result<(), Fault> {
    if arguments.is_empty() {
        Ok(())
    } else {
        Err(Fault::Mismatched)
    }
}

// A count of slots, or a capacity.
pub(crate) fn count(number: u64) -> Result<u32, Fault> {
    u32::try_from(number).map_err(|_| Fault::Mismatched)
}

pub(crate) fn coin(bytes: &[u8]) -> Result<Coin, Fault> {
    let bytes = bytes.as_array().ok_or(Fault::Mismatched)?;
    Ok(Coin::from_bytes(bytes))
}

// The records that the bytes stand for, N bytes each.
pub(crate) fn records<T: Record<N> + Drop, const N: usize>(
    heap: Global,
    bytes: &[u8],
) -> Result<Vec<T>, Fault> {
    let (chunks, rest) = bytes.as_chunks::<N>();
    if !rest.is_empty() {
        return Err(Fault::Mismatched);
    }
    let records = chunks.iter().map(|chunk| T::from_bytes(chunk));
    Ok(records.collect(heap)?)
}
