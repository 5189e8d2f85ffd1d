// The layers of the check, each for one or two numbers.
ghost use Rattle.std.specs.Prelude.{◌≡◌};
ghost use Rattle.utreexo.specs.Lists.{any};
ghost use Rattle.utreexo.specs.Checks.{blank_over};
ghost use Rattle.targets.specs.Targets.{placed};
ghost use Rattle.targets.specs.Spends.{target_of};

use targets::placed::Targets;
use targets::spend::Spend;
use utreexo::types::Value;

// Whether the root of the tree that a target lies in is blank.
fn is_under_blank(count: u32, roots: &[Option<Value>; 32], spend: Spend) -> bool
    ensures { result ≡ blank_over count roots.now (target_of spend) }
{
    let Some(row) = place::tree_row(count, spend.node) else {
        return true;
    };
    roots[row as usize].is_none()
}

// Whether some target lies under a blank root.
pub(crate) fn any_under_blank(roots: &[Option<Value>; 32], targets: &Targets) -> bool
    ensures { result ≡ any (blank_over targets.now.count roots.now) (placed targets.now) }
{
    let count = targets.count();
    targets
        .as_slice()
        .iter()
        .any(|spend| is_under_blank(count, roots, *spend))
}
