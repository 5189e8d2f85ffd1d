// A block that can be read, and what its bytes say.
ghost use Rattle.std.specs.Prelude.{◌≡◌, not, [], ◌∷◌, None};
ghost use Rattle.utreexo.specs.Blocks.{entries, ascending};
ghost use Rattle.utreexo.specs.Checks.{cause, refusal, read_causes, targets_of, place_causes};
ghost use Rattle.utreexo.specs.Outcomes.{Judged};
ghost use Rattle.block.specs.Reader.{counts_in};
ghost use Rattle.block.specs.Compose.{numbers};
ghost use Rattle.climb.specs.Held.{hashes_in};
ghost use Rattle.targets.specs.Targets.{placed};

use crate::records::read_all;
use arrayvec::ArrayVec;
use block::checks::check_ascending;
use block::entry::Counts;
use block::read::check_length;
use climb::needed::Needed;
use refusal::Refusal;
use targets::placed::Targets;
use utreexo::types::{Coin, Position};

// The bytes of a block, of which length and counts are right. Only `read` makes one.
#[derive(Clone, Copy)]
pub struct Block<'a> {
    bytes: &'a [u8],
    counts: Counts,
    ghost readable: { refusal (read_causes bytes.now) ≡ None },
    ghost counted: { counts ≡ counts_in bytes.now },
}

impl<'a> Block<'a> {
    // The checks on length and counts, 1 to 3.
    pub fn read(bytes: &'a [u8]) -> Result<Block<'a>, Refusal>
        ensures { Judged (read_causes bytes.now) (λ b. b.bytes.now ≡ bytes.now) result }
    {
        let counts = check_length(bytes)?;
        Ok(Block { bytes, counts })
    }

    // How many spent coins, hashes and new coins it has.
    pub fn counts(&self) -> Counts
        ensures { result ≡ counts_in self.now.bytes.now }
    {
        self.counts
    }

    // The positions of the targets.
    fn positions(&self) -> ArrayVec<Position, 32>
        ensures { numbers result.items ≡ (entries self.now.bytes.now).targets }
    {
        let mut positions = ArrayVec::new();
        read_all(self.bytes, 6, self.counts.spent as usize, &mut positions);
        positions
    }

    // The coins that the targets name.
    fn spent(&self) -> ArrayVec<Coin, 32>
        ensures { result.items ≡ (entries self.now.bytes.now).spent }
    {
        let mut coins = ArrayVec::new();
        let start = self.counts.targets_end();
        read_all(self.bytes, start, self.counts.spent as usize, &mut coins);
        coins
    }

    // The hashes, as bytes, 32 each.
    pub fn hashes(&self) -> &'a [u8]
        ensures { hashes_in result.now ≡ (entries self.now.bytes.now).hashes }
    {
        &self.bytes[self.counts.spent_end()..self.counts.hashes_end()]
    }

    // The new coins.
    pub fn coins(&self) -> ArrayVec<Coin, 32>
        ensures { result.items ≡ (entries self.now.bytes.now).coins }
    {
        let mut coins = ArrayVec::new();
        let start = self.counts.hashes_end();
        read_all(self.bytes, start, self.counts.coins as usize, &mut coins);
        coins
    }

    // The targets are strictly ascending: check 4.
    pub fn check_order(&self) -> Result<(), Refusal>
        ensures { Judged (cause 4 (not (ascending (entries self.now.bytes.now).targets)) ∷ []) (λ _. Unit {0}) result }
    {
        check_ascending(self.positions().as_slice())
    }

    // The targets in a forest of `count` slots: checks 4, and 6 to 8. No compression is worked out. Kept out of line, as `climb` is.
    #[inline(never)]
    pub fn place(&self, count: u32) -> Result<Targets, Refusal>
        ensures { Judged (cause 4 (not (ascending (entries self.now.bytes.now).targets)) ∷ place_causes count (entries self.now.bytes.now)) (λ t. (t.count ≡ count) × (placed t ≡ targets_of count (entries self.now.bytes.now))) result }
    {
        let targets = Targets::place(count, self.positions().as_slice(), self.spent().as_slice())?;
        if Needed::count(&targets) != self.counts.hashes as usize {
            return Err(Refusal::WrongHashCount);
        }
        Ok(targets)
    }
}
