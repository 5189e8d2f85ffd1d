// The hashes of a block, taken one after the other.
ghost use Rattle.std.specs.Prelude.{◌≡◌, ◌+◌, ◌<◌, ◌^◌, slice_index_or};
ghost use Rattle.utreexo.specs.Claims.{no_value};
ghost use Rattle.climb.specs.Held.{hashes_in};

use utreexo::record::Record;
use utreexo::types::Value;

// The hash of this number; zero where there are fewer.
pub fn hash_at(hashes: &[u8], index: usize) -> Value
    ensures { result ≡ slice_index_or (hashes_in hashes.now) index no_value }
{
    let (chunks, _) = hashes.as_chunks::<32>();
    chunks
        .get(index)
        .map_or(Value::default(), Value::from_bytes)
}

// Hashes as bytes, 32 each, and how many are used. That a call leaves the bytes as they were compares two states, so each call says it:
// no invariant can.
#[derive(Clone, Copy)]
pub(crate) struct Hashes<'a> {
    pub(crate) bytes: &'a [u8],
    pub(crate) used: usize,
}

impl Hashes<'_> {
    // The next hash. One that is missing counts as zero, and as used.
    pub(crate) fn next(&mut self) -> Value
        requires { self.old.used < 2 ^ 63 }
        ensures value { result ≡ slice_index_or (hashes_in self.old.bytes.now) self.old.used no_value }
        ensures used { self.new.used ≡ self.old.used + 1 }
        ensures bytes { self.new.bytes ≡ self.old.bytes }
    {
        let hash = hash_at(self.bytes, self.used);
        self.used += 1;
        hash
    }
}
