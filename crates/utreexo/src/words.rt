// Words of 8 bytes, the lowest byte first: what coins and values are made of.
ghost use Rattle.std.specs.Prelude.{◌≡◌, ◌+◌, ◌≤◌};
ghost use Rattle.utreexo.specs.Bytes.{part, number_in, number_bytes, four_words};

// The word that begins at byte i. Tried: `as_chunks::<8>()`, whose `returns` stays open.
pub(crate) fn read_word(bytes: &[u8; 32], i: usize) -> u64
    requires { i + 8 ≤ 32 }
    ensures { result ≡ number_in (part i 8 bytes.now) }
{
    u64::from_le_bytes([
        bytes[i],
        bytes[i + 1],
        bytes[i + 2],
        bytes[i + 3],
        bytes[i + 4],
        bytes[i + 5],
        bytes[i + 6],
        bytes[i + 7],
    ])
}

fn write_word(w: u64) -> [u8; 8]
    ensures { result ≡ number_bytes 8 w }
{
    w.to_le_bytes()
}

// Four words, one after the other. The last is written first: what is proved of a write then needs no lemma.
pub(crate) fn write_words(a: u64, b: u64, c: u64, d: u64) -> [u8; 32]
    ensures { result ≡ four_words a b c d }
{
    let mut bytes = [0; 32];
    bytes[24..32].copy_from_slice(&write_word(d));
    bytes[16..24].copy_from_slice(&write_word(c));
    bytes[8..16].copy_from_slice(&write_word(b));
    bytes[0..8].copy_from_slice(&write_word(a));
    bytes
}
