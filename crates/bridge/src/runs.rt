// Runs of a bridge.
ghost use Rattle.utreexo.specs.Bridge.{new_bridge};
ghost use Rattle.bridge.specs.Runs.{RunsAsDefined};

use crate::Bridge;
use compression::Compression;
use keeper::Keeper;

impl<C: Compression, K: Keeper<C>> Bridge<C, K> {
    // A bridge that began with an empty keeper is, after any takes and takes back, the one that the definitions' run gives. So it serves each
    // wallet that has the same standing blocks, as long as that wallet's answers are its register's and the blocks are bytes. The function
    // does nothing: its contract is that law.
    pub fn runs_as_defined(&self)
        ensures { RunsAsDefined new_bridge self.now }
    {}
}
