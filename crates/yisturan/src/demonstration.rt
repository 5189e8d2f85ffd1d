// One task from beginning to end: a wallet follows a bridge and proves a coin of its own; then a forged block, and the evidence.
use crate::beside::{print_card, print_state, take, take_back, write_block, write_card};
use answer::hex::Hex;
use anyhow::Error;
use block::compose::compose;
use bridge::Bridge;
use challenge::verdict::Verdict;
use compression::Compression;
use compression::hash::Blake2s;
use compression::tally::Tally;
use full_keeper::Full;
use refusal::Refusal;
use shelf::state::State;
use std::io;
use utreexo::record::Record;
use utreexo::types::{Coin, Input, Position, Slot, Value};
use wallet::Wallet;

type FullBridge<C> = Bridge<C, Full<C>>;

// The coin that the wallet watches is in slot 2.
const WATCHED: Slot = Slot { number: 2 };

// A block's first coin stands behind its counts and its first target.
const COIN_AT: usize = 14;

// Coin k is 32 bytes of k.
fn coin(k: u8) -> Coin {
    Coin::from_bytes(&[k; 32])
}

fn position(number: u64) -> Position {
    Position { number }
}

// The first two blocks: the wallet gets the coin's card, and stays right when the coin's neighbour is spent.
fn follow(
    rt: &HostRuntime,
    bridge: &mut FullBridge<Blake2s>,
    wallet: &mut Wallet<Blake2s>,
) -> anyhow::Result<()> {
    println!(rt; "Block 1 adds the coins 1 to 4.")?;
    let block = write_block(
        rt.alloc(),
        bridge,
        &[],
        &[coin(1), coin(2), coin(3), coin(4)],
    )?;
    take(bridge, wallet, block.as_slice())?;
    print_state(rt, bridge, wallet)?;
    println!(rt; "The bridge writes the card of coin 3, and the wallet puts it on its shelf.")?;
    let card = write_card(rt.alloc(), bridge, WATCHED)?;
    wallet.watch(card.as_slice()).map_err(Error::msg)?;
    print_card(rt, bridge, wallet, WATCHED)?;
    println!(rt;
        "Block 2 spends coin 4, whose place was beside coin 3, and adds the coins 5 to 8."
    )?;
    let block = write_block(
        rt.alloc(),
        bridge,
        &[position(3)],
        &[coin(5), coin(6), coin(7), coin(8)],
    )?;
    take(bridge, wallet, block.as_slice())?;
    print_state(rt, bridge, wallet)?;
    print_card(rt, bridge, wallet, WATCHED)
}

// What came of giving a block to the wallet or the bridge.
fn print_answer(rt: &HostRuntime, whose: &str, answer: Result<(), Refusal>) -> io::Result<()> {
    match answer {
        Ok(()) => println!(rt; "  The {whose} takes it."),
        Err(refusal) => println!(rt; "  The {whose} does not take it: {refusal}."),
    }
}

// A third block, damaged first, then right, then taken back.
fn refuse(
    rt: &HostRuntime,
    bridge: &mut FullBridge<Blake2s>,
    wallet: &mut Wallet<Blake2s>,
) -> anyhow::Result<()> {
    println!(rt;
        "Block 3 spends coin 1 and adds coin 9. First comes a copy in which one bit of the spent coin is turned."
    )?;
    let block = write_block(rt.alloc(), bridge, &[position(0)], &[coin(9)])?;
    let mut damaged = block.clone()?;
    if let Some(byte) = damaged.get_mut(COIN_AT) {
        *byte ^= 1;
    }
    print_answer(rt, "wallet", wallet.take(damaged.as_slice()))?;
    print_answer(rt, "bridge", bridge.take(damaged.as_slice()))?;
    println!(rt; "Then comes the block itself.")?;
    take(bridge, wallet, block.as_slice())?;
    print_state(rt, bridge, wallet)?;
    print_card(rt, bridge, wallet, WATCHED)?;
    println!(rt; "Both take block 3 back.")?;
    take_back(bridge, wallet)?;
    print_state(rt, bridge, wallet)?;
    print_card(rt, bridge, wallet, WATCHED)
}

// 32 bytes on a line of their own.
fn print_record<T: Record<32>>(rt: &HostRuntime, record: T) -> io::Result<()> {
    println!(rt; "    {}", Hex(&record.to_bytes()))
}

// The image of an input under Tally.
fn image(input: Input) -> Value {
    match input {
        Input::Leaf(coin) => Tally::leaf(coin),
        Input::Pair(left, right) => Tally::pair(left, right),
    }
}

// An input, and its image under Tally.
fn print_input(rt: &HostRuntime, whose: &str, input: Input) -> io::Result<()> {
    match input {
        Input::Leaf(coin) => {
            println!(rt; "  The {whose} input is the coin")?;
            print_record(rt, coin)?;
        }
        Input::Pair(left, right) => {
            println!(rt; "  The {whose} input is the pair")?;
            print_record(rt, left)?;
            print_record(rt, right)?;
        }
    }
    println!(rt; "  and has the image")?;
    print_record(rt, image(input))
}

// What a challenge says of a block.
fn print_verdict(rt: &HostRuntime, bridge: &FullBridge<Tally>, block: &[u8]) -> io::Result<()> {
    match bridge.challenge(block) {
        Ok(Verdict::Stands) => println!(rt; "The challenge says that the block stands."),
        Ok(
            Verdict::Differs {
                position,
                own,
                claimed,
            },
        ) => {
            let number = position.number;
            println!(rt;
                "The bridge is asked what is wrong with it. Its answer is position {number}, where two inputs have one image."
            )?;
            print_input(rt, "forest's own", own)?;
            print_input(rt, "block's", claimed)
        }
        Err(refusal) => println!(rt; "The challenge is refused: {refusal}."),
    }
}

// Under Tally two inputs with one image are easily found, so a block can be forged.
fn forge(
    rt: &HostRuntime,
    bridge: &mut FullBridge<Tally>,
    wallet: &mut Wallet<Tally>,
) -> anyhow::Result<()> {
    println!(rt; "Block 1 adds the coins 1 and 2.")?;
    let block = write_block(rt.alloc(), bridge, &[], &[coin(1), coin(2)])?;
    take(bridge, wallet, block.as_slice())?;
    print_state(rt, bridge, wallet)?;
    println!(rt; "A forged block spends coin 6 at position 0, which is that of coin 1.")?;
    let mut forged = [0; 78];
    compose(
        &[position(0)],
        &[coin(6)],
        &[Value::default()],
        &[],
        &mut forged,
    )
    .map_err(Error::msg)?;
    print_answer(rt, "wallet", wallet.take(&forged))?;
    print_answer(rt, "bridge", bridge.take(&forged))?;
    print_verdict(rt, bridge, &forged)?;
    Ok(())
}

// A wallet follows a bridge.
fn demonstrate_following(rt: &HostRuntime, marks: &mut [State]) -> anyhow::Result<()> {
    println!(rt; "A wallet follows a bridge over a full keeper, under BLAKE2s.")?;
    let mut bridge = Bridge::new(Full::<Blake2s>::new(rt.alloc(), 16)?);
    let mut wallet = Wallet::new(marks);
    follow(rt, &mut bridge, &mut wallet)?;
    refuse(rt, &mut bridge, &mut wallet)
}

// A forged block.
fn demonstrate_forgery(rt: &HostRuntime, marks: &mut [State]) -> anyhow::Result<()> {
    println!(rt;
        "The same under Tally, a compression for which inputs with one image are easily found."
    )?;
    let mut bridge = Bridge::new(Full::<Tally>::new(rt.alloc(), 16)?);
    let mut wallet = Wallet::new(marks);
    forge(rt, &mut bridge, &mut wallet)
}

// The demonstration, printed as it goes.
pub(crate) fn demonstrate(rt: &HostRuntime) -> anyhow::Result<()> {
    let mut marks = vec![in rt.alloc(); State::empty(); 4]?;
    println!(rt; "Let coin k be 32 bytes of the number k.")?;
    println!(rt)?;
    demonstrate_following(rt, marks.as_mut_slice())?;
    println!(rt)?;
    demonstrate_forgery(rt, marks.as_mut_slice())
}
