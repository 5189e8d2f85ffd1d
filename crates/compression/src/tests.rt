// Images that another implementation gave, of the coins and values that are one byte 32 times over.
use crate::hash::*;
use crate::tally::*;
use crate::{Compression, join};
use utreexo::record::*;
use utreexo::types::*;

const LEAF: [u8; 32] = [
    0xbc, 0xf0, 0xf5, 0xe2, 0x29, 0xc4, 0xd4, 0x8e, 0xc6, 0x13, 0x52, 0x8a, 0x1c, 0x44, 0xe9, 0x4e,
    0x9c, 0xe5, 0x3c, 0x17, 0x16, 0xa9, 0x38, 0x7d, 0x85, 0xb6, 0x50, 0xb9, 0xf0, 0xa6, 0x22, 0x08,
];

const PAIR: [u8; 32] = [
    0xf0, 0x5e, 0xe5, 0x5a, 0x49, 0x58, 0xc1, 0x04, 0x3f, 0x25, 0xbf, 0x7b, 0x83, 0xcd, 0x4a, 0xf2,
    0x10, 0xc6, 0x1c, 0x85, 0x7c, 0x2d, 0xed, 0x99, 0xc7, 0xdf, 0x65, 0xe8, 0x46, 0x97, 0x50, 0xb5,
];

fn coin(byte: u8) -> Coin {
    Coin::from_bytes(&[byte; 32])
}

fn value(byte: u8) -> Value {
    Value::from_bytes(&[byte; 32])
}

#[test]
fn tally_wraps(rt: HostRuntime) {
    assert_eq!(rt; Tally::leaf(coin(255)), value(0));
    assert_eq!(rt; Tally::pair(value(200), value(31)), value(243));
}

#[test]
fn absent_gives_way(rt: HostRuntime) {
    assert_eq!(rt; join::<Tally>(None, Some(value(7))), Some(value(7)));
    assert_eq!(rt; join::<Tally>(Some(value(7)), None), Some(value(7)));
    assert_eq!(rt; join::<Tally>(None, None), None);
}

#[test]
fn blake2s_leaf(rt: HostRuntime) {
    assert_eq!(rt; Blake2s::leaf(coin(1)).to_bytes(), LEAF);
}

#[test]
fn blake2s_pair(rt: HostRuntime) {
    assert_eq!(rt; Blake2s::pair(value(1), value(2)).to_bytes(), PAIR);
}
