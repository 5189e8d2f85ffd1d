// Small forests under Tally: coin k is 32 bytes of k, and a value likewise.
use crate::judge::*;
use crate::readable::*;
use block::compose::*;
use climb::after::*;
use compression::tally::*;
use refusal::Refusal;
use utreexo::record::Record;
use utreexo::types::*;

const fn at(number: u64) -> Position {
    Position { number }
}

fn coin(byte: u8) -> Coin {
    Coin::from_bytes(&[byte; 32])
}

fn value(byte: u8) -> Value {
    Value::from_bytes(&[byte; 32])
}

// The roots of a forest of at most seven slots, by row.
fn roots(first: Option<u8>, second: Option<u8>, third: Option<u8>) -> [Option<Value>; 32] {
    let mut roots = [None; 32];
    roots[0] = first.map(value);
    roots[1] = second.map(value);
    roots[2] = third.map(value);
    roots
}

// The roots once a block of these lists is spent, or why it is refused; and the table of after-values.
fn spend_into(
    count: u32,
    roots: &[Option<Value>; 32],
    targets: &[Position],
    spent: &[Coin],
    hashes: &[Value],
    after: &mut AfterValues,
) -> Result<[Option<Value>; 32], Refusal> {
    let mut bytes = [0; 256];
    let length = compose(targets, spent, hashes, &[], &mut bytes)?;
    let block = Block::read(bytes.get(..length).unwrap_or(&[]))?;
    let accepted = judge::<Tally>(count, roots, &block, after)?;
    let left = accepted.roots;
    Ok(left)
}

fn spend(
    count: u32,
    roots: &[Option<Value>; 32],
    targets: &[Position],
    spent: &[Coin],
    hashes: &[Value],
) -> Result<[Option<Value>; 32], Refusal> {
    let mut after = AfterValues::empty();
    spend_into(count, roots, targets, spent, hashes, &mut after)
}

// Coins 1 to 3, and then 4, a lone coin, and two coins of which one is spent.
#[test]
fn spent(rt: HostRuntime) -> Result<(), Refusal> {
    let four = roots(None, None, Some(248));
    let one = spend(4, &four, &[at(1)], &[coin(2)], &[value(2), value(37)])?;
    assert_eq!(rt; one, roots(None, None, Some(191)));
    let two = spend(4, &four, &[at(0), at(1)], &[coin(1), coin(2)], &[value(37)])?;
    assert_eq!(rt; two, roots(None, None, Some(37)));
    let lone = spend(1, &roots(Some(2), None, None), &[at(0)], &[coin(1)], &[])?;
    assert_eq!(rt; lone, roots(None, None, None));
    let three = roots(Some(4), Some(21), None);
    let right = spend(3, &three, &[at(2)], &[coin(3)], &[])?;
    assert_eq!(rt; right, roots(None, Some(21), None));
    Ok(())
}

// Each cause, and before it the one that comes first where both hold.
#[test]
fn refused(rt: HostRuntime) {
    let none = roots(None, None, None);
    let three = roots(Some(4), Some(21), None);
    let four = roots(None, None, Some(248));
    let order = spend(4, &four, &[at(1), at(0)], &[coin(2), coin(1)], &[]).err();
    assert_eq!(rt; order, Some(Refusal::TargetsNotAscending));
    let outside = Some(Refusal::TargetOutsideForest);
    assert_eq!(rt; spend(0, &none, &[at(0)], &[coin(1)], &[]).err(), outside);
    assert_eq!(rt; spend(3, &three, &[at(3)], &[coin(1)], &[]).err(), outside);
    assert_eq!(rt; spend(3, &three, &[at(5)], &[coin(1)], &[]).err(), outside);
    let above = spend(4, &four, &[at(0), at(4)], &[coin(1), coin(1)], &[]).err();
    assert_eq!(rt; above, Some(Refusal::TargetAboveAnother));
    let number = Some(Refusal::WrongHashCount);
    assert_eq!(rt;
        spend(4, &four, &[at(1)], &[coin(2)], &[value(2)]).err(),
        number
    );
    let three_hashes = [value(2), value(37), value(0)];
    assert_eq!(rt;
        spend(4, &none, &[at(1)], &[coin(2)], &three_hashes).err(),
        number
    );
    let blank = spend(1, &none, &[at(0)], &[coin(1)], &[]).err();
    assert_eq!(rt; blank, Some(Refusal::BlankRoot));
    let fit = spend(4, &four, &[at(1)], &[coin(1)], &[value(2), value(37)]).err();
    assert_eq!(rt; fit, Some(Refusal::ProofDoesNotFit));
}

// Two forged blocks that fit: coin 6 where coin 1 is, and coin 20 above both coins.
#[test]
fn forged(rt: HostRuntime) -> Result<(), Refusal> {
    let two = roots(None, Some(21), None);
    let below = spend(2, &two, &[at(0)], &[coin(6)], &[value(0)])?;
    assert_eq!(rt; below, roots(None, Some(0), None));
    let above = spend(2, &two, &[at(2)], &[coin(20)], &[])?;
    assert_eq!(rt; above, roots(None, None, None));
    Ok(())
}

// Of four coins the second is spent: its sibling moves up to the place above, and the root is worked out anew.
#[test]
fn after_values(rt: HostRuntime) -> Result<(), Refusal> {
    let four = roots(None, None, Some(248));
    let hashes = [value(2), value(37)];
    let mut after = AfterValues::empty();
    let left = spend_into(4, &four, &[at(1)], &[coin(2)], &hashes, &mut after)?;
    assert_eq!(rt; left[2], Some(value(191)));
    assert_eq!(rt; after.at(0, 0), None);
    assert_eq!(rt; after.at(0, 1), Some(None));
    assert_eq!(rt; after.at(1, 0), Some(Some(value(2))));
    assert_eq!(rt; after.at(2, 0), Some(left[2]));
    assert_eq!(rt;
        after.row(1).first().map(|item| item.claim),
        Some(value(21))
    );
    Ok(())
}
