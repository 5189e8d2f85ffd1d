// The challenge: whether a block's claims are those of the forest's own slots. Nothing here allocates.
#![tactic(auto)]

mod claims;
#[cfg(test)]
mod tests;
pub mod verdict;
mod visit;

ghost use Rattle.std.specs.Prelude.{◌≡◌, ◌≢◌, IfErr};
ghost use Rattle.refusal.specs.Numbers.{number};
ghost use Rattle.utreexo.specs.Collection.{challenge};
ghost use Rattle.challenge.specs.Verdicts.{judged};

use crate::claims::Claims;
use crate::verdict::Verdict;
use crate::visit::visit;
use climb::after::AfterValues;
use climb::needed::Needed;
use compression::Compression;
use keeper::Keeper;
use proof::judge::judge;
use proof::readable::Block;
use refusal::Refusal;
use std::marker::PhantomData;

// Checks a block against the keeper's roots, but not for the limit on the count, which is 11, and then visits the covered positions, the
// highest number first: the verdict is the first at which the claimed input differs from the own one, or that the block stands.
pub fn challenge<C: Compression, K: Keeper<C>>(keeper: &K, block: &[u8]) -> Result<Verdict, Refusal>
    ensures verdict { judged result ≡ challenge C.Compression.image (K.Keeper.slots keeper.now) block.now }
    ensures limit { IfErr result (λ e. number e ≢ 11) }
{
    let block = Block::read(block)?;
    let roots = own::roots::<C, K>(keeper);
    let mut table = AfterValues::empty();
    let accepted = judge::<C>(keeper.count(), &roots, &block, &mut table)?;
    let needed = Needed::of(&accepted.targets);
    let claims = Claims {
        targets: &accepted.targets,
        table: &table,
        needed: needed.as_slice(),
        hashes: block.hashes(),
        compression: PhantomData,
    };
    Ok(visit::<C, K>(keeper, &claims))
}
