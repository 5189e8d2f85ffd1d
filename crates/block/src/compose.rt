// Writing a block.
ghost use Rattle.std.specs.Prelude.{◌≡◌, ◌≤◌, length};
ghost use Rattle.utreexo.specs.Blocks.{composed};
ghost use Rattle.utreexo.specs.Checks.{over, compose_causes, compose as composing};
ghost use Rattle.block.specs.Compose.{numbers, block_of, counts_of, Few};
ghost use Rattle.utreexo.specs.Outcomes.{Judged, answered, Writes};

use crate::entry::Counts;
use crate::packed::*;
use refusal::Refusal;
use utreexo::types::{Coin, Position, Value};

// The four lists of a block, as many of each as a block can have.
#[derive(Clone, Copy)]
struct Parts<'a> {
    targets: &'a [Position],
    spent: &'a [Coin],
    hashes: &'a [Value],
    coins: &'a [Coin],
    ghost few: { Few (length targets.now) (length spent.now) (length hashes.now) (length coins.now) },
}

impl<'a> Parts<'a> {
    fn new(
        targets: &'a [Position],
        spent: &'a [Coin],
        hashes: &'a [Value],
        coins: &'a [Coin],
    ) -> Result<Parts<'a>, Refusal>
        ensures { Judged (compose_causes (length targets.now) (length spent.now) (length hashes.now) (length coins.now)) (λ p. (p.targets.now ≡ targets.now) × (p.spent.now ≡ spent.now) × (p.hashes.now ≡ hashes.now) × (p.coins.now ≡ coins.now)) result }
    {
        if targets.len() > 32 || spent.len() > 32 || hashes.len() > 992 || coins.len() > 32 {
            return Err(Refusal::OverLimit);
        }
        if targets.len() != spent.len() {
            return Err(Refusal::WrongLength);
        }
        Ok(Parts {
            targets,
            spent,
            hashes,
            coins,
        })
    }

    fn counts(&self) -> Counts
        ensures { result ≡ counts_of self.now.spent.now self.now.hashes.now self.now.coins.now }
    {
        Counts {
            spent: self.spent.len() as u16,
            hashes: self.hashes.len() as u16,
            coins: self.coins.len() as u16,
        }
    }

    // Writes the block over the front of the output.
    #[tactic(auto, using(crate::proofs::Composing::composed_parts))]
    fn write(&self, out: &mut [u8])
        requires { length (composed (block_of self.now.targets.now self.now.spent.now self.now.hashes.now self.now.coins.now)) ≤ length out.old }
        ensures { out.new ≡ over (composed (block_of self.now.targets.now self.now.spent.now self.now.hashes.now self.now.coins.now)) out.old }
    {
        let counts = self.counts();
        let targets_at = pack_all(&[counts.spent, counts.hashes, counts.coins], out, 0);
        let spent_at = pack_all(self.targets, out, targets_at);
        let hashes_at = pack_all(self.spent, out, spent_at);
        let coins_at = pack_all(self.hashes, out, hashes_at);
        pack_all(self.coins, out, coins_at);
    }
}

// Composes a block from the four lists into the front of the output, and gives its length. A longer output keeps its tail.
// By a rule of the project compose takes the four lists; inside they go together.
#[tactic(auto, using(crate::proofs::Composing::composed_long, crate::proofs::Composing::compose_short))]
pub fn compose(
    targets: &[Position],
    spent: &[Coin],
    hashes: &[Value],
    coins: &[Coin],
    out: &mut [u8],
) -> Result<usize, Refusal>
    ensures answer { answered result out.new ≡ composing (numbers targets.now) spent.now hashes.now coins.now out.old }
    ensures left { Writes (composed (block_of targets.now spent.now hashes.now coins.now)) out.old out.new result }
{
    let parts = Parts::new(targets, spent, hashes, coins)?;
    let length = parts.counts().coins_end();
    if out.len() < length {
        return Err(Refusal::OutputTooShort);
    }
    parts.write(out);
    Ok(length)
}
