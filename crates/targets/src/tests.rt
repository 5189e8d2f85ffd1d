// A clone has the targets of its original: it can fail by its type, so this shows that it does not.
use crate::placed::*;
use std::test::Fail;
use utreexo::record::Record;
use utreexo::types::*;

#[test]
fn clone_succeeds(rt: HostRuntime) -> Result<(), Fail> {
    let coins = [Coin::from_bytes(&[1; 32]), Coin::from_bytes(&[2; 32])];
    let positions = [Position { number: 0 }, Position { number: 2 }];
    let targets = Targets::place(3, &positions, &coins)?;
    let twin = targets.clone()?;
    assert_eq!(rt; twin.count(), 3);
    assert_eq!(rt; twin.as_slice().len(), 2);
    Ok(())
}
