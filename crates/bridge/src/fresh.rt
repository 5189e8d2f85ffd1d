// Fresh proofs.
ghost use Rattle.std.specs.Prelude.{◌≡◌, ◌≤◌, length};
ghost use Rattle.utreexo.specs.Collection.{fresh};
ghost use Rattle.targets.specs.Targets.{placed};

use arrayvec::ArrayVec;
use climb::needed::Needed;
use compression::Compression;
use keeper::Keeper;
use own::fresh_at;
use targets::placed::Targets;
use utreexo::types::Value;

// The fresh proof of a block's targets: the forest's own value at each needed position. No value is worked out here.
pub(crate) fn fresh_hashes<C: Compression, K: Keeper<C>>(
    keeper: &K,
    targets: &Targets,
) -> ArrayVec<Value, 992>
    requires forest { targets.now.count ≡ length (K.slots keeper.now) }
    requires few { length (placed targets.now) ≤ 32 }
    ensures { result.items ≡ fresh C.Compression.image (K.slots keeper.now) (placed targets.now) }
{
    let needed = Needed::of(targets);
    let mut hashes = ArrayVec::new();
    for node in needed.as_slice() {
        hashes.push(fresh_at::<C, K>(keeper, *node));
    }
    hashes
}
