// A value as bytes. Coins and values are two types, so each says its own conversion; one for both would be no plainer.
ghost use Rattle.utreexo.specs.Bytes.{value_in, value_bytes};
ghost use Rattle.std.proofs.Common.{rules};

use crate::record::Record;
use crate::types::Value;
use crate::words::{read_word, write_words};

impl Record<32> for Value {
    ghost packed = { value_bytes };

    ghost decoded = { value_in };

    ghost sized = { Prim.search rules };

    ghost few = { Prim.search rules };

    fn from_bytes(bytes: &[u8; 32]) -> Value {
        Value {
            w0: read_word(bytes, 0),
            w1: read_word(bytes, 8),
            w2: read_word(bytes, 16),
            w3: read_word(bytes, 24),
        }
    }

    fn to_bytes(&self) -> [u8; 32] {
        write_words(self.w0, self.w1, self.w2, self.w3)
    }
}
