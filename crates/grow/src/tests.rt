// Coins added under Tally, with roots and paths that were worked out by hand: the leaf of the coin of bytes n is n + 1, and the pair of
// bytes l and r is 3 × l + 5 × r, mod 256.
use crate::add_all;
use compression::tally::*;
use shelf::held::Held;
use shelf::state::State;
use shelf::table::Shelf;
use std::process::Abort;
use utreexo::record::Record;
use utreexo::types::*;

fn coin(byte: u8) -> Coin {
    Coin::from_bytes(&[byte; 32])
}

fn value(byte: u8) -> Value {
    Value::from_bytes(&[byte; 32])
}

fn check_root(rt: &impl Abort, state: &State, row: usize, root: Option<Value>) {
    let roots = state.roots;
    assert_eq!(rt; roots.get(row).copied(), Some(root), "row {row}");
}

#[test]
fn trees_joined(rt: HostRuntime) {
    let mut state = State::empty();
    assert!(rt; add_all::<Tally>(&mut state, &[coin(1), coin(2), coin(3)]).is_ok());
    check_root(&rt, &state, 0, Some(value(4)));
    check_root(&rt, &state, 1, Some(value(21)));
    assert!(rt; add_all::<Tally>(&mut state, &[coin(4)]).is_ok());
    assert_eq!(rt; state.count, 4);
    check_root(&rt, &state, 0, None);
    check_root(&rt, &state, 1, None);
    check_root(&rt, &state, 2, Some(value(248)));
}

// The only coin of a forest is spent: its root is blank, and gives way to the next coin's.
#[test]
fn blank_root_gives_way(rt: HostRuntime) {
    let mut state = State::empty();
    state.count = 1;
    assert!(rt; add_all::<Tally>(&mut state, &[coin(5)]).is_ok());
    assert_eq!(rt; state.count, 2);
    check_root(&rt, &state, 0, None);
    check_root(&rt, &state, 1, Some(value(6)));
}

// Coin 5 is in slot 2, and slots 0 and 1 are blank. The next coin's leaf goes on its path, and then it rises a row.
#[test]
fn shelf_follows(rt: HostRuntime) {
    let held = Held {
        coin: coin(5),
        row: 0,
        place: 2,
        path: [Value::default(); 31],
        len: 0,
    };
    let mut roots = [None; 32];
    roots[0] = Some(value(6));
    let mut state = State {
        count: 3,
        roots,
        shelf: Shelf {
            coins: [held; 8],
            len: 1,
        },
    };
    assert!(rt; add_all::<Tally>(&mut state, &[coin(6)]).is_ok());
    check_root(&rt, &state, 2, Some(value(53)));
    let after = state.shelf.coins[0];
    assert_eq!(rt; (after.row, after.place, after.len), (1, 0, 1));
    let path = after.path;
    assert_eq!(rt; path.first().copied(), Some(value(7)));
}
