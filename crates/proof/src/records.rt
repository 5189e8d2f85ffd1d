// How a list of records of a fixed number of bytes is read.
ghost use Rattle.std.specs.Prelude.{◌≡◌, ◌+◌, ◌*◌, ◌≤◌, ◌++◌, map, length};
ghost use Rattle.utreexo.specs.Bytes.{part};
ghost use Rattle.utreexo.specs.Lists.{below};

use arrayvec::ArrayVec;
use utreexo::record::Record;

// Puts `count` records last, which follow one another from the offset `start` on. By its type `collect` allocates, and a list of any
// record returned in place of the one lent stays open: it is not known to fit in memory.
pub(crate) fn read_all<T: Record<N>, const N: usize>(
    bytes: &[u8],
    start: usize,
    count: usize,
    records: &mut ArrayVec<T, 32>,
)
    requires few { length records.old.items + count ≤ 32 }
    requires whole { start + N * count ≤ length bytes.now }
    ensures { records.new.items ≡ records.old.items ++ map (λ i. T.Record.decoded (part (start + N * i) N bytes.now)) (below count) }
{
    let (chunks, _) = bytes[start..].as_chunks::<N>();
    for chunk in &chunks[..count] {
        records.push(T::from_bytes(chunk));
    }
}
