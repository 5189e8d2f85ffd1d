// Worked cases under Tally: four slots hold the coins 1 to 4, whose leaf images are 2 to 5, so the values above them are 21, 37 and 248. The
// coins 1, 3 and 4 are on the shelf.
ghost use Rattle.std.specs.Prelude.{◌≡◌, ◌<◌, true};
ghost use Rattle.shelf.specs.Held.{held_of, in_its_tree};

use crate::spend;
use climb::after::AfterValues;
use climb::climb::climb;
use compression::tally::Tally;
use place::{Node, position_of};
use shelf::held::Held;
use shelf::state::State;
use shelf::table::Shelf;
use std::process::Abort;
use std::test::Fail;
use targets::placed::Targets;
use utreexo::record::Record;
use utreexo::types::*;

fn value(byte: u8) -> Value {
    Value::from_bytes(&[byte; 32])
}

fn coin(byte: u8) -> Coin {
    Coin::from_bytes(&[byte; 32])
}

// The coin of a slot with its path.
fn held(byte: u8, slot: u32, low: u8, high: u8) -> Held
    requires { slot < 4 }
    ensures { in_its_tree 4 (held_of result) ≡ true }
{
    let mut path = [Value::default(); 31];
    path[0] = value(low);
    path[1] = value(high);
    Held {
        coin: coin(byte),
        row: 0,
        place: slot,
        path,
        len: 2,
    }
}

fn four_slots() -> State {
    let first = held(1, 0, 3, 37);
    let mut coins = [first; 8];
    coins[1] = held(3, 2, 5, 21);
    coins[2] = held(4, 3, 4, 21);
    let mut roots = [None; 32];
    roots[2] = Some(value(248));
    State {
        count: 4,
        roots,
        shelf: Shelf { coins, len: 3 },
    }
}

// The state once a block is spent.
fn spent(targets: &Targets, hashes: &[u8]) -> State {
    let mut state = four_slots();
    let mut after = AfterValues::empty();
    let left = climb::<Tally>(targets, &state.roots, hashes, &mut after);
    let left = left.unwrap_or(state.roots);
    spend(&mut state, targets, &after, &left);
    state
}

fn check_coin(rt: &impl Abort, held: Held, byte: u8, position: u64, path: &[u8]) {
    let node = Node {
        row: held.row,
        place: held.place,
    };
    assert_eq!(rt; held.coin, coin(byte));
    assert_eq!(rt; position_of(4, node), Some(Position { number: position }));
    assert_eq!(rt; held.len as usize, path.len());
    for (hash, wanted) in held.path.iter().zip(path) {
        assert_eq!(rt; *hash, value(*wanted));
    }
}

#[test]
fn one_of_two_spent(rt: HostRuntime) -> Result<(), Fail> {
    let targets = Targets::place(4, &[Position { number: 1 }], &[coin(2)])?;
    let mut hashes = [2; 64];
    hashes[32..].copy_from_slice(&[37; 32]);
    let state = spent(&targets, &hashes);
    assert_eq!(rt; state.shelf.len, 3);
    check_coin(&rt, state.shelf.coins[0], 1, 4, &[37]);
    check_coin(&rt, state.shelf.coins[1], 3, 2, &[5, 2]);
    check_coin(&rt, state.shelf.coins[2], 4, 3, &[4, 2]);
    let root = state.roots[2];
    assert_eq!(rt; root, Some(value(191)));
    Ok(())
}

#[test]
fn both_of_two_spent(rt: HostRuntime) -> Result<(), Fail> {
    let positions = [Position { number: 0 }, Position { number: 1 }];
    let targets = Targets::place(4, &positions, &[coin(1), coin(2)])?;
    let state = spent(&targets, &[37; 32]);
    assert_eq!(rt; state.shelf.len, 2);
    check_coin(&rt, state.shelf.coins[0], 3, 4, &[5]);
    check_coin(&rt, state.shelf.coins[1], 4, 5, &[4]);
    let root = state.roots[2];
    assert_eq!(rt; root, Some(value(37)));
    Ok(())
}
