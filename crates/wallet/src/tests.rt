// A wallet at work under Tally: the leaf of the coin of bytes n is n + 1, and the pair of bytes l and r is 3 × l + 5 × r, mod 256. What is
// expected was worked out by hand.
mod scale;

use crate::Wallet;
use block::compose::compose;
use compression::tally::*;
use refusal::Refusal;
use shelf::state::State;
use std::mem::size_of;
use std::process::Abort;
use std::test::Fail;
use utreexo::record::Record;
use utreexo::types::*;

// A wallet with 64 marks takes less than a megabyte.
const _: () = prove!(64 * size_of::<State>() + size_of::<Wallet<'static, Tally>>() < 1_000_000);

fn coin(byte: u8) -> Coin {
    Coin::from_bytes(&[byte; 32])
}

fn value(byte: u8) -> Value {
    Value::from_bytes(&[byte; 32])
}

fn at(number: u64) -> Position {
    Position { number }
}

fn front(out: &[u8], len: usize) -> &[u8] {
    &out[..len.min(out.len())]
}

// So many of 66 taken blocks, each of which adds a coin, can be taken back.
fn check_marks(rt: &impl Abort, places: usize, kept: u32) {
    let mut marks = [State::empty(); 65];
    let mut wallet = Wallet::<Tally>::new(&mut marks[..places.min(65)]);
    let mut block = [7; 38];
    block[..6].copy_from_slice(&[0, 0, 0, 0, 1, 0]);
    for _ in 0..66 {
        assert!(rt; wallet.take(&block).is_ok());
    }
    for _ in 0..kept {
        assert!(rt; wallet.take_back().is_ok());
    }
    assert_eq!(rt; wallet.take_back(), Err(Refusal::NoMark));
    assert_eq!(rt;
        wallet.count(),
        66u32.saturating_sub(kept),
        "{places} places"
    );
}

#[test]
fn marks_kept(rt: HostRuntime) {
    check_marks(&rt, 0, 0);
    check_marks(&rt, 1, 1);
    check_marks(&rt, 4, 4);
    check_marks(&rt, 64, 64);
    check_marks(&rt, 65, 64);
}

// Four slots with the coins 1 to 4, of which 1 and 3 are watched.
fn watch_two(wallet: &mut Wallet<Tally>) -> Result<(), Refusal> {
    let mut out = [0; 256];
    let coins = [coin(1), coin(2), coin(3), coin(4)];
    let len = compose(&[], &[], &[], &coins, &mut out)?;
    wallet.take(front(&out, len))?;
    let first = [value(3), value(37)];
    let len = compose(&[at(0)], &[coin(1)], &first, &[], &mut out)?;
    wallet.watch(front(&out, len))?;
    let second = [value(5), value(21)];
    let len = compose(&[at(2)], &[coin(3)], &second, &[], &mut out)?;
    wallet.watch(front(&out, len))
}

// Coin 2 is spent and coin 5 added.
fn spend_one(out: &mut [u8]) -> Result<usize, Refusal> {
    let hashes = [value(2), value(37)];
    compose(&[at(1)], &[coin(2)], &hashes, &[coin(5)], out)
}

#[test]
fn taken(rt: HostRuntime) -> Result<(), Fail> {
    let mut marks = [State::empty(); 64];
    let mut wallet = Wallet::<Tally>::new(&mut marks);
    watch_two(&mut wallet)?;
    let mut out = [0; 256];
    let len = spend_one(&mut out)?;
    wallet.check(front(&out, len))?;
    assert_eq!(rt; wallet.count(), 4);
    wallet.take(front(&out, len))?;
    let again = wallet.check(front(&out, len));
    assert_eq!(rt; again, Err(Refusal::ProofDoesNotFit));
    assert_eq!(rt; wallet.count(), 5);
    let roots = *wallet.roots();
    assert_eq!(rt; (roots[0], roots[2]), (Some(value(6)), Some(value(191))));
    assert_eq!(rt; wallet.position(0), Some(at(8)));
    assert_eq!(rt; wallet.position(1), Some(at(2)));
    wallet.take_back()?;
    assert_eq!(rt; wallet.position(0), Some(at(0)));
    wallet.take_back()?;
    assert_eq!(rt; (wallet.count(), wallet.shelf_len()), (0, 0));
    assert_eq!(rt; wallet.take_back(), Err(Refusal::NoMark));
    Ok(())
}

#[test]
fn shown(rt: HostRuntime) -> Result<(), Fail> {
    let mut marks = [State::empty(); 4];
    let mut wallet = Wallet::<Tally>::new(&mut marks);
    watch_two(&mut wallet)?;
    let mut out = [0; 256];
    let len = spend_one(&mut out)?;
    wallet.take(front(&out, len))?;
    let before = wallet.show(at(0), &mut out);
    assert_eq!(rt; before, Err(Refusal::NotOnShelf));
    let len = wallet.show(at(8), &mut out)?;
    let twice = wallet.watch(front(&out, len));
    assert_eq!(rt; twice, Err(Refusal::AlreadyOnShelf));
    let mut card = [0; 78];
    let wanted = compose(&[at(8)], &[coin(1)], &[value(37)], &[], &mut card)?;
    assert_eq!(rt; front(&out, len), front(&card, wanted));
    wallet.let_go(at(8))?;
    assert_eq!(rt; wallet.shelf_len(), 1);
    assert_eq!(rt; wallet.position(0), Some(at(2)));
    Ok(())
}

// The coins are 1 and 2; coin 20 has the leaf image 21, which is the root. So a card of it fits, though it is not there.
#[test]
fn forged_card(rt: HostRuntime) -> Result<(), Fail> {
    let mut marks = [State::empty(); 1];
    let mut wallet = Wallet::<Tally>::new(&mut marks);
    let mut out = [0; 256];
    let len = compose(&[], &[], &[], &[coin(1), coin(2)], &mut out)?;
    wallet.take(front(&out, len))?;
    let len = compose(&[at(2)], &[coin(20)], &[], &[], &mut out)?;
    wallet.watch(front(&out, len))?;
    let len = compose(&[at(0)], &[coin(1)], &[value(3)], &[], &mut out)?;
    wallet.watch(front(&out, len))?;
    let len = compose(&[at(0)], &[coin(6)], &[value(0)], &[], &mut out)?;
    wallet.take(front(&out, len))?;
    assert_eq!(rt; (wallet.count(), wallet.shelf_len()), (2, 0));
    assert_eq!(rt; wallet.roots().get(1).copied(), Some(Some(value(0))));
    Ok(())
}
