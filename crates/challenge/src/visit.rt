// The visit of the covered places, from the highest position down.
ghost use Rattle.std.specs.Prelude.{◌≡◌, ◌<◌, true, reverse, length, Some};
ghost use Rattle.utreexo.specs.Claims.{covered};
ghost use Rattle.utreexo.specs.Collection.{compared, Verdict as Judgement};
ghost use Rattle.place.specs.Nodes.{node_of, inside};
ghost use Rattle.targets.specs.Targets.{placed};
ghost use Rattle.climb.specs.After.{covered_places};
ghost use Rattle.climb.specs.Claimed.{claims as claims_of};
ghost use Rattle.challenge.specs.Verdicts.{judgement, found_or};
ghost use Rattle.challenge.specs.Visits.{visit_place, visit_places, visit_rows};

use crate::claims::Claims;
use crate::verdict::Verdict;
use compression::Compression;
use keeper::Keeper;
use place::Node;
use utreexo::types::{Input, Position};

// The verdict at a position with these inputs, if they differ.
fn compare(position: Position, own: Input, claimed: Input) -> Option<Verdict>
    ensures { (on : Judgement) → found_or result on ≡ compared position.number (Some own) (Some claimed) on }
{
    if own == claimed {
        return None;
    }
    Some(Verdict::Differs {
        position,
        own,
        claimed,
    })
}

// The verdict at a covered place, if the claimed input there differs from the own one.
fn visit_place<C: Compression, K: Keeper<C>>(
    keeper: &K,
    claims: &Claims<C>,
    node: Node,
) -> Option<Verdict>
    requires forest { claims.now.targets.now.count ≡ length (K.Keeper.slots keeper.now) }
    requires inside { inside claims.now.targets.now.count (node_of node) ≡ true }
    requires covered { covered (placed claims.now.targets.now) (node_of node) ≡ true }
    ensures { (on : Judgement) → found_or result on ≡ visit_place C.Compression.image (K.Keeper.slots keeper.now) (claims_of claims.now.targets.now claims.now.hashes.now) node.row node.place on }
{
    let own = own::at::<C, K>(keeper, node)?.input();
    let claimed = claims.input(node)?;
    let position = place::position_of(claims.targets.count(), node)?;
    compare(position, own, claimed)
}

// The first verdict in a row, from the right.
fn visit_row<C: Compression, K: Keeper<C>>(
    keeper: &K,
    claims: &Claims<C>,
    row: u8,
) -> Option<Verdict>
    requires forest { claims.now.targets.now.count ≡ length (K.Keeper.slots keeper.now) }
    requires low { row < 32 }
    ensures { (on : Judgement) → found_or result on ≡ visit_places C.Compression.image (K.Keeper.slots keeper.now) (claims_of claims.now.targets.now claims.now.hashes.now) row (reverse (covered_places claims.now.targets.now.count (placed claims.now.targets.now) row)) on }
{
    for item in claims.table.row(row).iter().rev() {
        let node = Node {
            row,
            place: item.place,
        };
        if let Some(verdict) = visit_place::<C, K>(keeper, claims, node) {
            return Some(verdict);
        }
    }
    None
}

// The verdict of the visit, row by row from the top.
pub(crate) fn visit<C: Compression, K: Keeper<C>>(keeper: &K, claims: &Claims<C>) -> Verdict
    requires { claims.now.targets.now.count ≡ length (K.Keeper.slots keeper.now) }
    ensures { judgement result ≡ visit_rows C.Compression.image (K.Keeper.slots keeper.now) (claims_of claims.now.targets.now claims.now.hashes.now) 32 }
{
    for row in (0..32u8).rev() {
        if let Some(verdict) = visit_row::<C, K>(keeper, claims, row) {
            return verdict;
        }
    }
    Verdict::Stands
}
