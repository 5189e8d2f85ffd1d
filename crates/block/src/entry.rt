// What a block is made of.
ghost use Rattle.std.specs.Prelude.{◌≡◌};
ghost use Rattle.block.specs.Reader.{targets_end, spent_end, hashes_end, coins_end};

// The three counts at the front of a block. There are as many targets as spent coins.
#[derive(Clone, Copy, PartialEq, Eq, Debug)]
pub struct Counts {
    pub spent: u16,
    pub hashes: u16,
    pub coins: u16,
}

// Where the four parts of a block end, each behind the one before. One function for all is no plainer: each goes by a count of its own.
impl Counts {
    pub fn targets_end(self) -> usize
        ensures { result ≡ targets_end self }
    {
        6 + 8 * self.spent as usize
    }

    pub fn spent_end(self) -> usize
        ensures { result ≡ spent_end self }
    {
        self.targets_end() + 32 * self.spent as usize
    }

    pub fn hashes_end(self) -> usize
        ensures { result ≡ hashes_end self }
    {
        self.spent_end() + 32 * self.hashes as usize
    }

    // The new coins end where the block does.
    pub(crate) fn coins_end(self) -> usize
        ensures { result ≡ coins_end self }
    {
        self.hashes_end() + 32 * self.coins as usize
    }
}

// An entry is a part of the block's own bytes; the end says that none is left.
// By a rule of the project the end is a case, and no `Option` stands around the entry.
#[derive(Clone, Copy)]
pub enum Entry<'a> {
    Target(&'a [u8; 8]),
    Spent(&'a [u8; 32]),
    Hash(&'a [u8; 32]),
    New(&'a [u8; 32]),
    End,
}
