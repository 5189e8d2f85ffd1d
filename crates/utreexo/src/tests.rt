// Bytes in, bytes out: what was read is written again.
use crate::record::*;
use crate::types::*;

const BYTES: [u8; 32] = [
    0, 1, 2, 3, 4, 5, 6, 7, 8, 9, 10, 11, 12, 13, 14, 15, 16, 17, 18, 19, 20, 21, 22, 23, 24, 25,
    26, 27, 28, 29, 30, 255,
];

#[test]
fn coin_there_and_back(rt: HostRuntime) {
    let coin = Coin::from_bytes(&BYTES);
    assert_eq!(rt; coin.w0, 0x0706_0504_0302_0100);
    assert_eq!(rt; coin.to_bytes(), BYTES);
}

#[test]
fn value_there_and_back(rt: HostRuntime) {
    let value = Value::from_bytes(&BYTES);
    assert_eq!(rt; value.w3, 0xff1e_1d1c_1b1a_1918);
    assert_eq!(rt; value.to_bytes(), BYTES);
}
