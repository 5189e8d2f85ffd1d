// The words of BLAKE2s, and how they are read from bytes and written to bytes.
ghost use Rattle.std.specs.Prelude.{◌≡◌, ◌≤◌, length};
ghost use Rattle.std.specs.List.{flat_map};
ghost use Rattle.blake2s.specs.Blake2s.{word_bytes, block_words, padded};

use std::array;

// The sixteen words of a block.
pub(crate) fn read_block(bytes: &[u8; 64]) -> [u32; 16]
    ensures { result ≡ block_words bytes.now }
{
    let (words, _) = bytes.as_chunks::<4>();
    array::from_fn(|k| u32::from_le_bytes(words[k]))
}

// A block of the bytes, and zeros after them.
pub(crate) fn pad(bytes: &[u8]) -> [u8; 64]
    requires { length bytes.now ≤ 64 }
    ensures { result ≡ padded bytes.now }
{
    let mut block = [0; 64];
    block[0..bytes.len()].copy_from_slice(bytes);
    block
}

// The bytes of the last state: the digest.
pub(crate) fn write_state(h: [u32; 8]) -> [u8; 32]
    ensures { result ≡ flat_map word_bytes h }
{
    array::from_fn(|i| h[i / 4].to_le_bytes()[i % 4])
}
