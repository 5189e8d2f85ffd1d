// Script calls on bridges.
use crate::arguments::{Argument, buffer, coin, no_arguments, only_bytes, records};
use crate::choice::Choice;
use crate::fault::*;
use crate::hashing::Hashing;
use crate::keepers;
use answer::{Answer, Output, Shown};
use bridge::Bridge;
use challenge::verdict::Verdict;
use compression::Compression;
use compression::hash::Blake2s;
use compression::tally::Tally;
use full_keeper::Full;
use keeper::Keeper;
use keeper::bare::Bare;
use refusal::Refusal;
use std::alloc::{AllocError, Global};
use std::str::FromStr;
use utreexo::types::{Coin, Position, Value};

// A bridge over a keeper of either kind, under either compression.
pub(crate) type AnyBridge = Choice<
    Bridge<Blake2s, Bare<Blake2s>>,
    Bridge<Blake2s, Full<Blake2s>>,
    Bridge<Tally, Bare<Tally>>,
    Bridge<Tally, Full<Tally>>,
>;

#[derive(Clone, Copy)]
pub(crate) enum Name {
    Take,
    TakeBack,
    Find,
    Card,
    LookUp,
    Write,
    Challenge,
}

impl FromStr for Name {
    type Err = Fault;

    fn from_str(name: &str) -> Result<Name, Fault> {
        match name {
            "take" => Ok(Name::Take),
            "take_back" => Ok(Name::TakeBack),
            "find" => Ok(Name::Find),
            "card" => Ok(Name::Card),
            "look_up" => Ok(Name::LookUp),
            "write" => Ok(Name::Write),
            "challenge" => Ok(Name::Challenge),
            _ => Err(Fault::Call),
        }
    }
}

// bridge.new #capacity,#kind
pub(crate) fn new(
    heap: Global,
    hashing: Option<Hashing>,
    arguments: &[Argument],
) -> Result<AnyBridge, Fault> {
    match keepers::new(heap, hashing, arguments)? {
        Choice::BareBlake2s(keeper) => Ok(Choice::BareBlake2s(Bridge::new(keeper))),
        Choice::FullBlake2s(keeper) => Ok(Choice::FullBlake2s(Bridge::new(keeper))),
        Choice::BareTally(keeper) => Ok(Choice::BareTally(Bridge::new(keeper))),
        Choice::FullTally(keeper) => Ok(Choice::FullTally(Bridge::new(keeper))),
    }
}

// card #slot,#length
fn card<C: Compression, K: Keeper<C>>(
    heap: Global,
    bridge: &Bridge<C, K>,
    arguments: &[Argument],
) -> Result<(Option<Refusal>, Output), Fault> {
    let [Argument::Number(number), Argument::Number(length)] = arguments else {
        return Err(Fault::Mismatched);
    };
    let mut out = buffer(heap, *length)?;
    let refusal = match keepers::slot(*number) {
        Ok(slot) => bridge.card(slot, out.as_mut_slice()).err(),
        Err(refusal) => Some(refusal),
    };
    Ok((refusal, Output::Buffer(out)))
}

// look_up coin,#length
fn look_up<C: Compression, K: Keeper<C>>(
    heap: Global,
    bridge: &Bridge<C, K>,
    arguments: &[Argument],
) -> Result<(Option<Refusal>, Output), Fault> {
    let [Argument::Bytes(bytes), Argument::Number(length)] = arguments else {
        return Err(Fault::Mismatched);
    };
    let coin = coin(bytes.as_slice())?;
    let mut out = buffer(heap, *length)?;
    let written = bridge.look_up(coin, out.as_mut_slice());
    Ok((written.err(), Output::Buffer(out)))
}

// write positions,new,#length
fn write<C: Compression, K: Keeper<C>>(
    heap: Global,
    bridge: &Bridge<C, K>,
    arguments: &[Argument],
) -> Result<(Option<Refusal>, Output), Fault> {
    let [
        Argument::Bytes(positions),
        Argument::Bytes(coins),
        Argument::Number(length),
    ] = arguments
    else {
        return Err(Fault::Mismatched);
    };
    let positions = records::<Position, _>(heap, positions.as_slice())?;
    let coins = records::<Coin, _>(heap, coins.as_slice())?;
    let mut out = buffer(heap, *length)?;
    let written = bridge.write(positions.as_slice(), coins.as_slice(), out.as_mut_slice());
    Ok((written.err(), Output::Buffer(out)))
}

// challenge block
fn challenge<C: Compression, K: Keeper<C>>(
    bridge: &Bridge<C, K>,
    block: &[u8],
) -> (Option<Refusal>, Output) {
    match bridge.challenge(block) {
        Ok(Verdict::Stands) => (None, Output::Stands),
        Ok(
            Verdict::Differs {
                position,
                own,
                claimed,
            },
        ) => (
            None,
            Output::Differs {
                position,
                own,
                claimed,
            },
        ),
        Err(refusal) => (Some(refusal), Output::Nothing),
    }
}

fn perform<C: Compression, K: Keeper<C>>(
    heap: Global,
    bridge: &mut Bridge<C, K>,
    name: Name,
    arguments: &[Argument],
) -> Result<(Option<Refusal>, Output), Fault> {
    match name {
        Name::Take => Ok((bridge.take(only_bytes(arguments)?).err(), Output::Nothing)),
        Name::TakeBack => {
            no_arguments(arguments)?;
            Ok((bridge.take_back().err(), Output::Nothing))
        }
        Name::Find => {
            let coin = coin(only_bytes(arguments)?)?;
            Ok((None, Output::Slot(bridge.find(coin))))
        }
        Name::Card => card(heap, bridge, arguments),
        Name::LookUp => look_up(heap, bridge, arguments),
        Name::Write => write(heap, bridge, arguments),
        Name::Challenge => Ok(challenge(bridge, only_bytes(arguments)?)),
    }
}

// Room for the roots that are shown. It is made before a call: so no call that has done its work is answered by want of memory.
pub(crate) fn room(heap: Global) -> Result<Box<[Option<Value>; 32]>, AllocError> {
    let roots = Box::new(heap, [None; 32])?;
    Ok(roots)
}

fn state<C: Compression, K: Keeper<C>>(
    bridge: &Bridge<C, K>,
    mut roots: Box<[Option<Value>; 32]>,
) -> Shown {
    *roots = bridge.roots();
    let count = bridge.count();
    Shown::Bridge { count, roots }
}

// What is shown of a bridge.
pub(crate) fn shown(bridge: &AnyBridge, roots: Box<[Option<Value>; 32]>) -> Shown {
    match bridge {
        Choice::BareBlake2s(bridge) => state(bridge, roots),
        Choice::FullBlake2s(bridge) => state(bridge, roots),
        Choice::BareTally(bridge) => state(bridge, roots),
        Choice::FullTally(bridge) => state(bridge, roots),
    }
}

// bridge.take block, bridge.take_back, bridge.find coin, bridge.card #slot,#length, bridge.look_up coin,#length,
// bridge.write positions,new,#length and bridge.challenge block.
pub(crate) fn ask(
    heap: Global,
    bridge: &mut AnyBridge,
    name: Name,
    arguments: &[Argument],
) -> Result<Answer, Fault> {
    let roots = room(heap)?;
    let (refusal, output) = match bridge {
        Choice::BareBlake2s(bridge) => perform(heap, bridge, name, arguments)?,
        Choice::FullBlake2s(bridge) => perform(heap, bridge, name, arguments)?,
        Choice::BareTally(bridge) => perform(heap, bridge, name, arguments)?,
        Choice::FullTally(bridge) => perform(heap, bridge, name, arguments)?,
    };
    Ok(Answer {
        refusal,
        shown: shown(bridge, roots),
        output,
    })
}
