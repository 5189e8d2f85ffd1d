// Bridges over both keepers and under both compressions, with the numbers of an independent implementation.
use crate::Bridge;
use block::compose::compose;
use challenge::verdict::Verdict;
use compression::Compression;
use compression::hash::Blake2s;
use compression::tally::Tally;
use full_keeper::Full;
use keeper::Keeper;
use keeper::bare::Bare;
use refusal::Refusal;
use std::process::Abort;
use std::test::Fail;
use utreexo::record::Record;
use utreexo::types::*;

// Coin k is 32 bytes of k, and so is value k.
fn coin(k: u8) -> Coin {
    Coin::from_bytes(&[k; 32])
}

fn value(k: u8) -> Value {
    Value::from_bytes(&[k; 32])
}

// The position in a card.
fn position_in(card: &[u8]) -> Option<Position> {
    let (_, rest) = card.split_first_chunk::<6>()?;
    let (bytes, _) = rest.split_first_chunk::<8>()?;
    Some(Position::from_bytes(bytes))
}

// Takes the block that the bridge writes.
fn take_written<C: Compression, K: Keeper<C>>(
    bridge: &mut Bridge<C, K>,
    positions: &[Position],
    coins: &[Coin],
) -> Result<(), Refusal> {
    let mut out = [0; 2000];
    let length = bridge.write(positions, coins, &mut out)?;
    let Some(block) = out.get(..length) else {
        return Err(Refusal::OutputTooShort);
    };
    bridge.take(block)
}

// Block k adds coin k and spends coin k - 2.
fn take_next<C: Compression, K: Keeper<C>>(
    bridge: &mut Bridge<C, K>,
    k: u8,
) -> Result<(), Refusal> {
    if k < 2 {
        return take_written::<C, K>(bridge, &[], &[coin(k)]);
    }
    let mut card = [0; 2000];
    bridge.look_up(coin(k - 2), &mut card)?;
    let Some(position) = position_in(&card) else {
        return Err(Refusal::BlockTooShort);
    };
    take_written::<C, K>(bridge, &[position], &[coin(k)])
}

// Of 70 blocks 64 can be taken back, and the state is then that after 6 blocks.
fn check_run<C: Compression, K: Keeper<C>>(
    rt: &impl Abort,
    bridge: &mut Bridge<C, K>,
) -> Result<(), Refusal> {
    for k in 0..70u8 {
        take_next::<C, K>(bridge, k)?;
    }
    assert_eq!(rt; bridge.count(), 70);
    assert_eq!(rt; bridge.find(coin(67)), None);
    assert_eq!(rt; bridge.find(coin(68)), Some(Slot { number: 68 }));
    for _ in 0..64 {
        bridge.take_back()?;
    }
    assert_eq!(rt; bridge.take_back(), Err(Refusal::NoMark));
    check_six::<C, K>(rt, bridge);
    Ok(())
}

fn check_six<C: Compression, K: Keeper<C>>(rt: &impl Abort, bridge: &Bridge<C, K>) {
    assert_eq!(rt; bridge.count(), 6);
    assert_eq!(rt; bridge.find(coin(3)), None);
    assert_eq!(rt; bridge.find(coin(4)), Some(Slot { number: 4 }));
    assert_eq!(rt; bridge.find(coin(6)), None);
}

// With coins 1 to 4, the block that spends coin 2.
fn block_of_two(out: &mut [u8; 110]) -> Result<usize, Refusal> {
    let position = Position { number: 1 };
    let hashes = [value(2), value(37)];
    compose(&[position], &[coin(2)], &hashes, &[], out)
}

// Blocks that are refused for one byte, of the coin or of the first hash.
fn check_refused<K: Keeper<Tally>>(
    rt: &impl Abort,
    bridge: &mut Bridge<Tally, K>,
) -> Result<(), Refusal> {
    let mut block = [0; 110];
    block_of_two(&mut block)?;
    block[14] = 1;
    assert_eq!(rt; bridge.take(&block), Err(Refusal::NotFound));
    block[14] = 2;
    block[46] = 1;
    assert_eq!(rt; bridge.take(&block), Err(Refusal::HashNotFresh));
    Ok(())
}

// The bridge writes the block that spends coin 2, and takes it.
fn check_written<K: Keeper<Tally>>(
    rt: &impl Abort,
    bridge: &mut Bridge<Tally, K>,
) -> Result<(), Refusal> {
    let mut block = [0; 110];
    let mut out = [0; 110];
    assert_eq!(rt; block_of_two(&mut block), Ok(110));
    let position = Position { number: 1 };
    assert_eq!(rt; bridge.write(&[position], &[], &mut out), Ok(110));
    assert_eq!(rt; out, block);
    bridge.take(&out)?;
    assert_eq!(rt;
        bridge.write(&[position], &[], &mut out),
        Err(Refusal::NotFound)
    );
    Ok(())
}

// Then coin 1 has position 4 and the path 37, and slot 1 is blank.
fn check_cards<K: Keeper<Tally>>(
    rt: &impl Abort,
    bridge: &Bridge<Tally, K>,
) -> Result<(), Refusal> {
    let mut card = [9; 142];
    let mut out = [9; 142];
    let position = Position { number: 4 };
    compose(&[position], &[coin(1)], &[value(37)], &[], &mut card)?;
    assert_eq!(rt; bridge.card(Slot { number: 0 }, &mut out), Ok(78));
    assert_eq!(rt; out, card);
    assert_eq!(rt;
        bridge.card(Slot { number: 1 }, &mut out),
        Err(Refusal::NotFound)
    );
    assert_eq!(rt; bridge.look_up(coin(2), &mut out), Err(Refusal::NotFound));
    assert_eq!(rt;
        bridge.look_up(coin(1), &mut [0; 77]),
        Err(Refusal::OutputTooShort)
    );
    Ok(())
}

fn check_small<K: Keeper<Tally>>(
    rt: &impl Abort,
    bridge: &mut Bridge<Tally, K>,
) -> Result<(), Refusal> {
    take_written::<Tally, K>(bridge, &[], &[coin(1), coin(2), coin(3), coin(4)])?;
    check_refused::<K>(rt, bridge)?;
    check_written::<K>(rt, bridge)?;
    check_cards::<K>(rt, bridge)
}

// A forged block under Tally: the challenge names the position and the two inputs with one image.
fn check_challenge<K: Keeper<Tally>>(
    rt: &impl Abort,
    bridge: &mut Bridge<Tally, K>,
) -> Result<(), Refusal> {
    take_written::<Tally, K>(bridge, &[], &[coin(1), coin(2)])?;
    let mut out = [0; 78];
    compose(
        &[Position { number: 0 }],
        &[coin(6)],
        &[value(0)],
        &[],
        &mut out,
    )?;
    assert_eq!(rt;
        bridge.challenge(&out),
        Ok(Verdict::Differs {
            position: Position { number: 2 },
            own: Input::Pair(value(2), value(3)),
            claimed: Input::Pair(value(7), value(0)),
        })
    );
    assert_eq!(rt; bridge.take(&out), Err(Refusal::NotFound));
    bridge.write(&[Position { number: 0 }], &[], &mut out)?;
    assert_eq!(rt; bridge.challenge(&out), Ok(Verdict::Stands));
    Ok(())
}

// A keeper of three slots: a block that would pass them is refused, and changes nothing.
fn check_capacity<C: Compression, K: Keeper<C>>(
    rt: &impl Abort,
    bridge: &mut Bridge<C, K>,
) -> Result<(), Refusal> {
    take_written::<C, K>(bridge, &[], &[coin(1), coin(2)])?;
    assert_eq!(rt;
        take_written::<C, K>(bridge, &[], &[coin(3), coin(4)]),
        Err(Refusal::OverCapacity)
    );
    assert_eq!(rt; bridge.count(), 2);
    take_written::<C, K>(bridge, &[], &[coin(3)])?;
    assert_eq!(rt; bridge.count(), 3);
    bridge.take_back()?;
    assert_eq!(rt; bridge.count(), 2);
    Ok(())
}

#[test]
fn runs(rt: HostRuntime) -> Result<(), Fail> {
    let heap = rt.alloc();
    check_run(&rt, &mut Bridge::new(Bare::<Tally>::new(heap, 100)?))?;
    check_run(&rt, &mut Bridge::new(Full::<Tally>::new(heap, 100)?))?;
    check_run(&rt, &mut Bridge::new(Bare::<Blake2s>::new(heap, 100)?))?;
    check_run(&rt, &mut Bridge::new(Full::<Blake2s>::new(heap, 100)?))?;
    Ok(())
}

#[test]
fn small_forests(rt: HostRuntime) -> Result<(), Fail> {
    let heap = rt.alloc();
    check_small(&rt, &mut Bridge::new(Bare::<Tally>::new(heap, 4)?))?;
    check_small(&rt, &mut Bridge::new(Full::<Tally>::new(heap, 4)?))?;
    check_challenge(&rt, &mut Bridge::new(Bare::<Tally>::new(heap, 2)?))?;
    check_challenge(&rt, &mut Bridge::new(Full::<Tally>::new(heap, 2)?))?;
    Ok(())
}

#[test]
fn capacity_met(rt: HostRuntime) -> Result<(), Fail> {
    let heap = rt.alloc();
    check_capacity(&rt, &mut Bridge::new(Bare::<Tally>::new(heap, 3)?))?;
    check_capacity(&rt, &mut Bridge::new(Full::<Blake2s>::new(heap, 3)?))?;
    Ok(())
}
