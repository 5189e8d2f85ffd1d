// Records of a fixed number of bytes: what blocks are made of.
ghost use Rattle.std.specs.Prelude.{◌≡◌, ◌<◌, ◌≤◌, length};
ghost use Rattle.std.proofs.Common.{rules};
ghost use Rattle.utreexo.specs.Bytes.{Bytes, number_in, number_bytes, position_in, position_bytes};

use crate::types::Position;

// A record is N bytes. `From` in its place is no plainer: it has a relation where lists of records need a function.
pub trait Record<const N: usize>: Copy {
    // The record's bytes.
    ghost packed: { Self → Bytes };

    // The record that bytes stand for.
    ghost decoded: { Bytes → Self };

    fn from_bytes(bytes: &[u8; N]) -> Self
        ensures { result ≡ decoded bytes.now };

    fn to_bytes(&self) -> [u8; N]
        ensures { result ≡ packed self.now };

    ghost sized: { (x : Self) → length (packed x) ≡ N };

    // So bytes can be cut into records.
    ghost few: { (0 < N) × (N ≤ 32) };
}

// The counts at the front of a block.
impl Record<2> for u16 {
    ghost packed = { number_bytes 2 };

    ghost decoded = { number_in };

    ghost sized = { Prim.search rules };

    ghost few = { Prim.search rules };

    fn from_bytes(bytes: &[u8; 2]) -> u16 {
        u16::from_le_bytes(*bytes)
    }

    fn to_bytes(&self) -> [u8; 2] {
        self.to_le_bytes()
    }
}

impl Record<8> for Position {
    ghost packed = { position_bytes };

    ghost decoded = { position_in };

    ghost sized = { Prim.search rules };

    ghost few = { Prim.search rules };

    fn from_bytes(bytes: &[u8; 8]) -> Position {
        Position {
            number: u64::from_le_bytes(*bytes),
        }
    }

    fn to_bytes(&self) -> [u8; 8] {
        self.number.to_le_bytes()
    }
}
