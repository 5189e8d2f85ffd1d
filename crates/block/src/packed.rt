// How a list of records is written.
ghost use Rattle.std.specs.Prelude.{◌≡◌, ◌+◌, ◌≤◌, map, length};
ghost use Rattle.utreexo.specs.Blocks.{concat};
ghost use Rattle.block.specs.Compose.{placed};

use utreexo::record::Record;

// Writes the records one after the other, from the offset `at` on, and gives the offset behind them.
pub(crate) fn pack_all<T: Record<N>, const N: usize>(
    items: &[T],
    out: &mut [u8],
    at: usize,
) -> usize
    requires { at + length (concat (map T.Record.packed items.now)) ≤ length out.old }
    ensures after { out.new ≡ placed at (concat (map T.Record.packed items.now)) out.old }
    ensures end { result ≡ at + length (concat (map T.Record.packed items.now)) }
{
    // The offset runs along, since it is the answer: a zip with `chunks_exact_mut` would need it too, so it is no plainer.
    let mut start = at;
    for item in items {
        let end = start + N;
        out[start..end].copy_from_slice(&item.to_bytes());
        start = end;
    }
    start
}
