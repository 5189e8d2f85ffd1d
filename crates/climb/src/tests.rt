// The only coin of a forest is spent: its proof needs no hash and fits, the root is blank after it, and a clone of the table of
// after-values says the same. A clone can fail by its type, so this shows that it does not.
use crate::after::*;
use crate::climb::*;
use compression::Compression;
use compression::tally::*;
use std::test::Fail;
use targets::placed::*;
use utreexo::record::Record;
use utreexo::types::*;

#[test]
fn one_coin_spent(rt: HostRuntime) -> Result<(), Fail> {
    let coin = Coin::from_bytes(&[7; 32]);
    let targets = Targets::place(1, &[Position { number: 0 }], &[coin])?;
    let mut roots = [None; 32];
    roots[0] = Some(Tally::leaf(coin));
    let mut after = AfterValues::empty();
    let left = climb::<Tally>(&targets, &roots, &[], &mut after);
    assert_eq!(rt; left, Some([None; 32]));
    roots[0] = Some(Tally::pair(Value::default(), Value::default()));
    let other = climb::<Tally>(&targets, &roots, &[], &mut after);
    assert_eq!(rt; other, None);
    let twin = after.clone()?;
    assert_eq!(rt; twin.at(0, 0), Some(None));
    assert_eq!(rt; twin.at(0, 1), None);
    Ok(())
}
