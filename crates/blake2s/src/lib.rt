// BLAKE2s with a digest of 32 bytes and no key, for messages of at most 128 bytes (RFC 7693).
#![tactic(auto)]

mod compress;
#[cfg(test)]
mod tests;
mod words;

ghost use Rattle.std.specs.Prelude.{◌≡◌, ◌≤◌, [], length, codes};
ghost use Rattle.std.proofs.Common.{refl};
ghost use Rattle.std.proofs.lemmas.Bool.{leb-true};
ghost use Rattle.blake2s.specs.Blake2s.{blake2s, answer};
ghost use Rattle.blake2s.specs.Examples.{abc_digest, empty_digest};

use compress::compress;
use refusal::Refusal;
use words::{pad, read_block, write_state};

// The state before the first block: the initialization vector, with the parameters in its first word.
const FIRST: [u32; 8] = [
    0x6b08e647, 0xbb67ae85, 0x3c6ef372, 0xa54ff53a, 0x510e527f, 0x9b05688c, 0x1f83d9ab, 0x5be0cd19,
];

// The digest of a message. The copy for N > 0 is for messages of N bytes, the one for 0 for any.
fn hash<const N: usize>(message: &[u8]) -> [u8; 32]
    requires { length message.now ≤ 128 }
    ensures { result ≡ blake2s message.now }
{
    let (h, last) = match message.split_first_chunk::<64>() {
        Some((front, rest)) if !rest.is_empty() => {
            let m = read_block(front);
            (compress::<N, 0>(FIRST, &m, 64, false), rest)
        }
        _ => (FIRST, message),
    };
    let m = read_block(&pad(last));
    write_state(compress::<N, 1>(h, &m, message.len() as u64, true))
}

// The digest of any message of at most 128 bytes; a longer one is refused.
pub fn digest(message: &[u8]) -> Result<[u8; 32], Refusal>
    ensures { result ≡ answer message.now }
{
    if message.len() > 128 {
        return Err(Refusal::OverLimit);
    }
    Ok(hash::<0>(message))
}

// Arrays of at most 128 bytes, so that their digest is not refused: a tag, and one or two records of 32.
pub trait Short<const N: usize> {
    ghost few: { N ≤ 128 };
}

impl Short<33> for [u8; 33] {
    ghost few = { leb-true 33 128 refl };
}

impl Short<65> for [u8; 65] {
    ghost few = { leb-true 65 128 refl };
}

// The digest of a message of N bytes, compiled for that length.
pub fn digest_of<const N: usize>(message: &[u8; N]) -> [u8; 32]
where
    [u8; N]: Short<N>,
    ensures { result ≡ blake2s message.now }
{
    hash::<N>(message)
}

// The definition itself gives the published digests.
pub fn published_digests()
    ensures abc { blake2s (codes "abc") ≡ abc_digest }
    ensures empty { blake2s [] ≡ empty_digest }
{}
