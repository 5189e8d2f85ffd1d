// What is wrong with a line that names no call that can be made.
use std::alloc::AllocError;
use thiserror::Error;

#[derive(Clone, Copy, Debug, Error)]
pub(crate) enum Fault {
    #[error("a line has three fields with one space between them: compression, call, arguments")]
    Fields,
    #[error("the compression is 0 (where it plays no part), 1 (BLAKE2s) or 2 (Tally)")]
    Compression,
    #[error("there is no call of this name")]
    Call,
    #[error("an argument is # and a number, or lowercase hexadecimal bytes, or . for no bytes")]
    Unreadable,
    #[error("the call does not take these arguments")]
    Mismatched,
    #[error("the call needs a compression, 1 (BLAKE2s) or 2 (Tally)")]
    NoCompression,
    #[error("there is no keeper yet: keeper.new makes one")]
    NoKeeper,
    #[error("there is no bridge yet: bridge.new makes one")]
    NoBridge,
    #[error("there is no wallet yet: new makes one")]
    NoWallet,
    #[error("there is no memory for this line")]
    Memory(#[from(alloc)] AllocError),
}
