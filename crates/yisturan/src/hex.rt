// Bytes from lowercase hexadecimal digits.
ghost use Rattle.std.specs.Prelude.{◌<◌, Some, None};

use crate::fault::*;
use std::alloc::Global;

// The value of a digit.
fn digit(c: u8) -> Option<u8>
    ensures { elim result [ Some v ↦ v < 16 | None ↦ Unit {0} ] }
{
    match c {
        b'0'..=b'9' => Some(c - b'0'),
        b'a'..=b'f' => Some(c - b'a' + 10),
        _ => None,
    }
}

// The bytes that two digits each stand for.
pub(crate) fn read(heap: Global, text: &str) -> Result<Vec<u8>, Fault> {
    let mut bytes = Vec::new(heap);
    if text == "." {
        return Ok(bytes);
    }
    let (pairs, rest) = text.as_bytes().as_chunks::<2>();
    if pairs.is_empty() || !rest.is_empty() {
        return Err(Fault::Unreadable);
    }
    for [high, low] in pairs {
        let high = digit(*high).ok_or(Fault::Unreadable)?;
        let low = digit(*low).ok_or(Fault::Unreadable)?;
        bytes.push(16 * high + low)?;
    }
    Ok(bytes)
}
