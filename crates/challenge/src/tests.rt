// Worked cases under Tally, where coin k is 32 bytes of k, and value k likewise.
use crate::verdict::*;
use crate::*;
use block::compose::compose;
use compression::tally::*;
use keeper::bare::*;
use std::alloc::Global;
use std::test::Fail;
use utreexo::record::*;
use utreexo::types::*;

fn coin(byte: u8) -> Coin {
    Coin::from_bytes(&[byte; 32])
}

fn value(byte: u8) -> Value {
    Value::from_bytes(&[byte; 32])
}

// A forest with these coins.
fn forest(alloc: Global, capacity: u32, bytes: &[u8]) -> Result<Bare<Tally>, Fail> {
    let mut keeper = Bare::new(alloc, capacity)?;
    for byte in bytes {
        keeper.append(coin(*byte))?;
    }
    Ok(keeper)
}

// What is answered to a block with one target.
fn answer(
    forest: &Bare<Tally>,
    target: u64,
    spent: u8,
    hashes: &[Value],
    coins: &[Coin],
) -> Result<Verdict, Refusal> {
    let mut block = [0; 256];
    let targets = [Position { number: target }];
    let length = compose(&targets, &[coin(spent)], hashes, coins, &mut block)?;
    challenge::<Tally, Bare<Tally>>(forest, block.get(..length).unwrap_or(&[]))
}

fn differs(number: u64, own: Input, claimed: Input) -> Result<Verdict, Refusal> {
    Ok(Verdict::Differs {
        position: Position { number },
        own,
        claimed,
    })
}

#[test]
fn two_coins(rt: HostRuntime) -> Result<(), Fail> {
    let two = forest(rt.alloc(), 2, &[1, 2])?;
    let own = Input::Pair(value(2), value(3));
    assert_eq!(rt; answer(&two, 0, 1, &[value(3)], &[]), Ok(Verdict::Stands));
    // both claims have the image 21
    let pair = Input::Pair(value(7), value(0));
    assert_eq!(rt; answer(&two, 0, 6, &[value(0)], &[]), differs(2, own, pair));
    assert_eq!(rt;
        answer(&two, 2, 20, &[], &[]),
        differs(2, own, Input::Leaf(coin(20)))
    );
    assert_eq!(rt;
        answer(&two, 0, 6, &[value(1)], &[]),
        Err(Refusal::ProofDoesNotFit)
    );
    // room for new coins is not looked at
    assert_eq!(rt;
        answer(&two, 0, 1, &[value(3)], &[coin(9)]),
        Ok(Verdict::Stands)
    );
    Ok(())
}

// Coins that moved up lie beneath position 12, though its whole span is blank.
#[test]
fn beneath_by_positions(rt: HostRuntime) -> Result<(), Fail> {
    let mut eight = forest(rt.alloc(), 8, &[9, 9, 9, 9, 1, 2, 3, 4])?;
    for number in 0..4 {
        eight.blank(Slot { number })?;
    }
    let own = Input::Pair(value(2), value(3));
    assert_eq!(rt;
        answer(&eight, 8, 1, &[value(3), value(37)], &[]),
        Ok(Verdict::Stands)
    );
    assert_eq!(rt;
        answer(&eight, 12, 20, &[value(37)], &[]),
        differs(12, own, Input::Leaf(coin(20)))
    );
    Ok(())
}
