// A wallet beside the bridge that it follows: what both do, and how they are printed.
use answer::roots::Roots;
use anyhow::Error;
use bridge::Bridge;
use compression::Compression;
use keeper::Keeper;
use std::alloc::Global;
use std::io;
use utreexo::types::{Coin, Position, Slot};
use wallet::Wallet;

// No block of the demonstration is longer.
const LONGEST: usize = 1000;

// The block that the bridge writes.
pub(crate) fn write_block<C: Compression, K: Keeper<C>>(
    heap: Global,
    bridge: &Bridge<C, K>,
    positions: &[Position],
    coins: &[Coin],
) -> anyhow::Result<Vec<u8>> {
    let mut out = vec![in heap; 0; LONGEST]?;
    let length = bridge
        .write(positions, coins, out.as_mut_slice())
        .map_err(Error::msg)?;
    out.truncate(length);
    Ok(out)
}

// The card that the bridge writes of a slot.
pub(crate) fn write_card<C: Compression, K: Keeper<C>>(
    heap: Global,
    bridge: &Bridge<C, K>,
    slot: Slot,
) -> anyhow::Result<Vec<u8>> {
    let mut out = vec![in heap; 0; LONGEST]?;
    let length = bridge.card(slot, out.as_mut_slice()).map_err(Error::msg)?;
    out.truncate(length);
    Ok(out)
}

// The card that the wallet shows of the coin at a position.
fn show_card<C: Compression>(
    heap: Global,
    wallet: &Wallet<C>,
    position: Position,
) -> anyhow::Result<Vec<u8>> {
    let mut out = vec![in heap; 0; LONGEST]?;
    let length = wallet
        .show(position, out.as_mut_slice())
        .map_err(Error::msg)?;
    out.truncate(length);
    Ok(out)
}

// Both take a block.
pub(crate) fn take<C: Compression, K: Keeper<C>>(
    bridge: &mut Bridge<C, K>,
    wallet: &mut Wallet<C>,
    block: &[u8],
) -> anyhow::Result<()> {
    bridge.take(block).map_err(Error::msg)?;
    wallet.take(block).map_err(Error::msg)
}

// Both take their newest block back.
pub(crate) fn take_back<C: Compression, K: Keeper<C>>(
    bridge: &mut Bridge<C, K>,
    wallet: &mut Wallet<C>,
) -> anyhow::Result<()> {
    bridge.take_back().map_err(Error::msg)?;
    wallet.take_back().map_err(Error::msg)
}

// The wallet's count and roots, and whether they are the bridge's.
pub(crate) fn print_state<C: Compression, K: Keeper<C>>(
    rt: &HostRuntime,
    bridge: &Bridge<C, K>,
    wallet: &Wallet<C>,
) -> io::Result<()> {
    let count = wallet.count();
    let roots = wallet.roots();
    let shown = Roots { count, roots };
    let words = if count == bridge.count() && *roots == bridge.roots() {
        "The bridge's are the same."
    } else {
        "The bridge's are others."
    };
    println!(rt;
        "  Both have {count} slots. The wallet's roots, the largest tree first:\n  {shown}\n  {words}"
    )
}

// Where the wallet has its first coin, and whether it shows the card of the slot that the bridge writes.
pub(crate) fn print_card<C: Compression, K: Keeper<C>>(
    rt: &HostRuntime,
    bridge: &Bridge<C, K>,
    wallet: &Wallet<C>,
    slot: Slot,
) -> anyhow::Result<()> {
    let Some(position) = wallet.position(0) else {
        println!(rt; "  The wallet's shelf is empty.")?;
        return Ok(());
    };
    let shown = show_card(rt.alloc(), wallet, position)?;
    let written = write_card(rt.alloc(), bridge, slot)?;
    let number = position.number;
    let words = if shown.as_slice() == written.as_slice() {
        "the one that the bridge writes"
    } else {
        "another than the bridge's"
    };
    println!(rt;
        "  On its shelf the coin has position {number}. The card that it shows is {words}."
    )?;
    Ok(())
}
