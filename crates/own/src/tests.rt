// What forests of 8, 4 and 3 slots have, over both keepers, with the numbers of an independent implementation.
use crate::*;
use compression::tally::Tally;
use full_keeper::Full;
use keeper::bare::Bare;
use refusal::Refusal;
use std::process::Abort;
use std::test::Fail;
use utreexo::record::Record;

// Coin k is 32 bytes of k, and so is value k.
fn coin(k: u8) -> Coin {
    Coin::from_bytes(&[k; 32])
}

fn value(k: u8) -> Value {
    Value::from_bytes(&[k; 32])
}

// Appends coin k for each byte; a 0 leaves its slot blank.
fn fill<K: Keeper<Tally>>(keeper: &mut K, coins: &[u8]) -> Result<(), Refusal> {
    for k in coins {
        let slot = Slot {
            number: keeper.count(),
        };
        keeper.append(coin(*k))?;
        if *k == 0 {
            keeper.blank(slot)?;
        }
    }
    Ok(())
}

fn check_none<K: Keeper<Tally>>(rt: &impl Abort, keeper: &K, row: u8, place: u32) {
    let node = Node { row, place };
    assert_eq!(rt; at::<Tally, K>(keeper, node), None);
    assert_eq!(rt; value_at::<Tally, K>(keeper, node), None);
}

fn check_leaf<K: Keeper<Tally>>(
    rt: &impl Abort,
    keeper: &K,
    row: u8,
    place: u32,
    slot: u32,
    k: u8,
) {
    let node = Node { row, place };
    let slot = Slot { number: slot };
    let coin = coin(k);
    assert_eq!(rt;
        at::<Tally, K>(keeper, node),
        Some(Own::Leaf { slot, coin })
    );
    assert_eq!(rt; live_slot::<Tally, K>(keeper, node, coin), Some(slot));
    assert_eq!(rt;
        value_at::<Tally, K>(keeper, node),
        Some(value(k.wrapping_add(1)))
    );
}

fn check_pair<K: Keeper<Tally>>(
    rt: &impl Abort,
    keeper: &K,
    row: u8,
    place: u32,
    left: u8,
    right: u8,
) {
    let node = Node { row, place };
    let left = value(left);
    let right = value(right);
    assert_eq!(rt;
        at::<Tally, K>(keeper, node),
        Some(Own::Pair { left, right })
    );
    assert_eq!(rt;
        value_at::<Tally, K>(keeper, node),
        Some(Tally::pair(left, right))
    );
}

// Slots 0 to 3 are blank: the coins of slots 4 to 7 are one row up, and the pair of the first two is at position 12.
fn check_half_blank<K: Keeper<Tally>>(rt: &impl Abort, keeper: &K) {
    check_none::<K>(rt, keeper, 0, 4);
    check_leaf::<K>(rt, keeper, 1, 0, 4, 1);
    check_leaf::<K>(rt, keeper, 1, 3, 7, 4);
    check_pair::<K>(rt, keeper, 2, 0, 2, 3);
    check_pair::<K>(rt, keeper, 2, 1, 4, 5);
    check_pair::<K>(rt, keeper, 3, 0, 21, 37);
    let node = Node { row: 2, place: 0 };
    assert_eq!(rt; fresh_at::<Tally, K>(keeper, node), value(21));
    let node = Node { row: 0, place: 4 };
    assert_eq!(rt; fresh_at::<Tally, K>(keeper, node), value(0));
    assert_eq!(rt; roots::<Tally, K>(keeper)[3], Some(value(248)));
}

// Slot 1 is blank: the coin of slot 0 is one row up.
fn check_one_blank<K: Keeper<Tally>>(rt: &impl Abort, keeper: &K) {
    check_none::<K>(rt, keeper, 0, 0);
    check_leaf::<K>(rt, keeper, 0, 2, 2, 3);
    check_leaf::<K>(rt, keeper, 0, 3, 3, 4);
    check_leaf::<K>(rt, keeper, 1, 0, 0, 1);
    check_pair::<K>(rt, keeper, 1, 1, 4, 5);
    check_pair::<K>(rt, keeper, 2, 0, 2, 37);
    let node = Node { row: 1, place: 0 };
    assert_eq!(rt; coin_at::<Tally, K>(keeper, node), Some(coin(1)));
    assert_eq!(rt; live_slot::<Tally, K>(keeper, node, coin(2)), None);
}

// Two trees: the place beside the second, and the one above the first, are outside the forest.
fn check_two_trees<K: Keeper<Tally>>(rt: &impl Abort, keeper: &K) {
    check_leaf::<K>(rt, keeper, 0, 2, 2, 3);
    check_none::<K>(rt, keeper, 0, 3);
    check_none::<K>(rt, keeper, 2, 0);
    check_none::<K>(rt, keeper, 255, 0);
    let roots = roots::<Tally, K>(keeper);
    assert_eq!(rt; roots[0], Some(value(4)));
    assert_eq!(rt; roots[1], Some(value(21)));
    assert_eq!(rt; roots[2], None);
}

#[test]
fn over_the_bare_keeper(rt: HostRuntime) -> Result<(), Fail> {
    let mut keeper = Bare::<Tally>::new(rt.alloc(), 8)?;
    fill(&mut keeper, &[0, 0, 0, 0, 1, 2, 3, 4])?;
    check_half_blank(&rt, &keeper);
    let mut keeper = Bare::<Tally>::new(rt.alloc(), 4)?;
    fill(&mut keeper, &[1, 0, 3, 4])?;
    check_one_blank(&rt, &keeper);
    let mut keeper = Bare::<Tally>::new(rt.alloc(), 3)?;
    fill(&mut keeper, &[1, 2, 3])?;
    check_two_trees(&rt, &keeper);
    Ok(())
}

#[test]
fn over_the_full_keeper(rt: HostRuntime) -> Result<(), Fail> {
    let mut keeper = Full::<Tally>::new(rt.alloc(), 8)?;
    fill(&mut keeper, &[0, 0, 0, 0, 1, 2, 3, 4])?;
    check_half_blank(&rt, &keeper);
    let mut keeper = Full::<Tally>::new(rt.alloc(), 4)?;
    fill(&mut keeper, &[1, 0, 3, 4])?;
    check_one_blank(&rt, &keeper);
    let mut keeper = Full::<Tally>::new(rt.alloc(), 3)?;
    fill(&mut keeper, &[1, 2, 3])?;
    check_two_trees(&rt, &keeper);
    Ok(())
}
