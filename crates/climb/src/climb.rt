// A block's proof against the count and the roots, row by row.
ghost use Rattle.std.specs.Prelude.{◌≡◌, map};
ghost use Rattle.std.specs.Bool.{then_some};
ghost use Rattle.utreexo.specs.Lists.{below};
ghost use Rattle.utreexo.specs.Claims.{fits, root_after};
ghost use Rattle.climb.specs.After.{Fills};
ghost use Rattle.climb.specs.Claimed.{claims};

use crate::above::{meets_root, root_after};
use crate::after::AfterValues;
use crate::item::Row;
use crate::rise::Rise;
use compression::Compression;
use targets::placed::Targets;
use utreexo::types::Value;

// Works the claims of a proof out, and fills the table of after-values. The answer is the roots once the targets are spent; None if the
// proof does not fit. The hashes are bytes, 32 each; where too few are given, those that are missing count as zero, and where too many
// are, the others are not looked at. Kept out of line: in its caller's frame its rows would stand beside those that are done with.
#[inline(never)]
pub fn climb<C: Compression>(
    targets: &Targets,
    roots: &[Option<Value>; 32],
    hashes: &[u8],
    after: &mut AfterValues,
) -> Option<[Option<Value>; 32]>
    ensures roots { result ≡ then_some (fits C.Compression.image (claims targets.now hashes.now) roots.now) (map (root_after C.Compression.image (claims targets.now hashes.now) roots.now) (below 32)) }
    ensures after { Fills C.Compression.image (claims targets.now hashes.now) after.new }
{
    let mut rise = Rise::new(targets, hashes);
    let mut fitting = true;
    let mut roots_after = *roots;
    // The check follows a row that is lent out of a slice, and not one out of the table itself.
    let rows = &mut after.rows[..];
    // A row is a number here: it shifts the count and tells the targets of the row, so an iterator over the roots is no plainer.
    for row in 0..32u8 {
        let aside = rise.work::<C>(row, &mut rows[row as usize]);
        let root = roots[row as usize];
        fitting &= meets_root(aside, root);
        roots_after[row as usize] = root_after(aside, root);
    }
    fitting.then_some(roots_after)
}
