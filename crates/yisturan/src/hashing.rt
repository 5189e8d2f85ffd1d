// The compression that a line names.
use crate::fault::*;

#[derive(Clone, Copy)]
pub(crate) enum Hashing {
    Blake2s,
    Tally,
}

// The compression of a number; None for 0, where it plays no part.
pub(crate) fn read(text: &str) -> Result<Option<Hashing>, Fault> {
    match text {
        "0" => Ok(None),
        "1" => Ok(Some(Hashing::Blake2s)),
        "2" => Ok(Some(Hashing::Tally)),
        _ => Err(Fault::Compression),
    }
}
