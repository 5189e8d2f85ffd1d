// Places and positions of forests of 3, 4, 7 and 4294967295 slots, with the numbers of an independent implementation.
use crate::*;
use std::process::Abort;
use utreexo::types::*;

// The position, the row and place that it has, and the position of its root.
fn check_place(rt: &impl Abort, count: u32, number: u64, row: u8, place: u32, root: u64) {
    let node = Node { row, place };
    assert_eq!(rt; locate(count, Position { number }), Some(node));
    assert_eq!(rt; position_of(count, node), Some(Position { number }));
    assert_eq!(rt; root_position(count, node), Some(Position { number: root }));
}

fn check_none(rt: &impl Abort, count: u32, number: u64) {
    assert_eq!(rt; locate(count, Position { number }), None);
}

#[test]
fn three_slots(rt: HostRuntime) {
    check_place(&rt, 3, 1, 0, 1, 4);
    check_place(&rt, 3, 2, 0, 2, 2);
    check_none(&rt, 3, 3);
    check_place(&rt, 3, 4, 1, 0, 4);
    check_none(&rt, 3, 5);
}

#[test]
fn four_slots(rt: HostRuntime) {
    check_place(&rt, 4, 3, 0, 3, 6);
    check_place(&rt, 4, 5, 1, 1, 6);
    check_place(&rt, 4, 6, 2, 0, 6);
    check_none(&rt, 4, 7);
}

#[test]
fn seven_slots(rt: HostRuntime) {
    check_place(&rt, 7, 5, 0, 5, 10);
    check_place(&rt, 7, 6, 0, 6, 6);
    check_place(&rt, 7, 9, 1, 1, 12);
    check_none(&rt, 7, 11);
    check_place(&rt, 7, 12, 2, 0, 12);
    check_none(&rt, 7, 14);
}

#[test]
fn most_slots(rt: HostRuntime) {
    let count = 4294967295;
    check_place(&rt, count, 4294967294, 0, 4294967294, 4294967294);
    check_place(&rt, count, 7179821347, 2, 737370403, 8589934586);
    check_place(&rt, count, 8589934588, 31, 0, 8589934588);
    check_none(&rt, count, 8589934583);
    check_none(&rt, count, 18446744073709551615);
}
