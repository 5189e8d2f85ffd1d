// The check chain of a block against a count and roots.
ghost use Rattle.std.specs.Prelude.{◌≡◌, OnOk};
ghost use Rattle.utreexo.specs.Blocks.{entries};
ghost use Rattle.utreexo.specs.Checks.{block_proof};
ghost use Rattle.utreexo.specs.Outcomes.{Judged};
ghost use Rattle.climb.specs.After.{Fills};
ghost use Rattle.proof.specs.Accepts.{judge_causes, Accepts};

use crate::accepted::Accepted;
use crate::layers::any_under_blank;
use crate::readable::Block;
use climb::after::AfterValues;
use climb::climb::climb;
use compression::Compression;
use refusal::Refusal;
use utreexo::types::Value;

// Checks 4, and 6 to 10, each over the whole block before the next. Where the block is accepted, `after` has what is claimed of each
// covered place, and what is left there; where it is refused, nothing is said of `after`. Kept out of line, so that its stack can be read off a program.
#[inline(never)]
pub fn judge<C: Compression>(
    count: u32,
    roots: &[Option<Value>; 32],
    block: &Block,
    after: &mut AfterValues,
) -> Result<Accepted, Refusal>
    ensures judged { Judged (judge_causes C.Compression.image count roots.now (entries block.now.bytes.now)) (Accepts C.Compression.image count roots.now (entries block.now.bytes.now)) result }
    ensures after { OnOk result (Fills C.Compression.image (block_proof count (entries block.now.bytes.now)) after.new) }
{
    let targets = block.place(count)?;
    if any_under_blank(roots, &targets) {
        return Err(Refusal::BlankRoot);
    }
    let Some(roots) = climb::<C>(&targets, roots, block.hashes(), after) else {
        return Err(Refusal::ProofDoesNotFit);
    };
    Ok(Accepted { targets, roots })
}
