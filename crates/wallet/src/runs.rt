// Runs of a wallet.
ghost use Rattle.utreexo.specs.Wallet.{new_wallet};
ghost use Rattle.wallet.specs.Runs.{RunsAsDefined};

use crate::Wallet;
use compression::Compression;

impl<'a, C: Compression> Wallet<'a, C> {
    // A wallet that was made empty is, after any calls, the one that the definitions' run gives: it follows the register while every answer
    // is the register's, and the first that differs is caught. The function does nothing: its contract is that law.
    pub fn runs_as_defined(&self)
        ensures { RunsAsDefined C.Compression.image new_wallet self.now }
    {}
}
