// Script calls on keepers.
use crate::arguments::{Argument, coin, count, only_bytes, only_number};
use crate::choice::Choice;
use crate::fault::*;
use crate::hashing::Hashing;
use answer::{Answer, Output, Shown};
use compression::Compression;
use compression::hash::Blake2s;
use compression::tally::Tally;
use full_keeper::Full;
use keeper::Keeper;
use keeper::bare::Bare;
use keeper::run::Run;
use refusal::Refusal;
use std::alloc::Global;
use std::str::FromStr;
use utreexo::types::{Coin, Slot};

// A keeper of either kind, with values under either compression.
pub(crate) type AnyKeeper = Choice<Bare<Blake2s>, Full<Blake2s>, Bare<Tally>, Full<Tally>>;

#[derive(Clone, Copy)]
pub(crate) enum Name {
    Append,
    Blank,
    Refill,
    Cut,
    Coin,
    Value,
}

impl FromStr for Name {
    type Err = Fault;

    fn from_str(name: &str) -> Result<Name, Fault> {
        match name {
            "append" => Ok(Name::Append),
            "blank" => Ok(Name::Blank),
            "refill" => Ok(Name::Refill),
            "cut" => Ok(Name::Cut),
            "coin" => Ok(Name::Coin),
            "value" => Ok(Name::Value),
            _ => Err(Fault::Call),
        }
    }
}

// A call with its arguments. Slots, rows and places are whatever numbers a line has.
#[derive(Clone, Copy)]
enum Call {
    Append(Coin),
    Blank(u64),
    Refill(u64, Coin),
    Cut,
    Coin(u64),
    Value(u64, u64),
}

// Takes the arguments of a call apart.
fn read(name: Name, arguments: &[Argument]) -> Result<Call, Fault> {
    match name {
        Name::Append => Ok(Call::Append(coin(only_bytes(arguments)?)?)),
        Name::Blank => Ok(Call::Blank(only_number(arguments)?)),
        Name::Refill => match arguments {
            [Argument::Number(slot), Argument::Bytes(bytes)] => {
                Ok(Call::Refill(*slot, coin(bytes.as_slice())?))
            }
            _ => Err(Fault::Mismatched),
        },
        Name::Cut if arguments.is_empty() => Ok(Call::Cut),
        Name::Cut => Err(Fault::Mismatched),
        Name::Coin => Ok(Call::Coin(only_number(arguments)?)),
        Name::Value => match arguments {
            [Argument::Number(row), Argument::Number(place)] => Ok(Call::Value(*row, *place)),
            _ => Err(Fault::Mismatched),
        },
    }
}

// The slot of a number; a number of more than 32 bits is past any count.
pub(crate) fn slot(number: u64) -> Result<Slot, Refusal> {
    let number = u32::try_from(number).map_err(|_| Refusal::NotFound)?;
    Ok(Slot { number })
}

// The run of a row and place; a row of more than 8 bits is past any count.
fn run(row: u64, place: u64) -> Result<Run, Refusal> {
    let row = u8::try_from(row).map_err(|_| Refusal::NotFound)?;
    Ok(Run { row, place })
}

fn perform<C: Compression, K: Keeper<C>>(keeper: &mut K, call: Call) -> Result<Output, Refusal> {
    match call {
        Call::Append(coin) => keeper.append(coin)?,
        Call::Blank(number) => keeper.blank(slot(number)?)?,
        Call::Refill(number, coin) => keeper.refill(slot(number)?, coin)?,
        Call::Cut => keeper.cut()?,
        Call::Coin(number) => return Ok(Output::Coin(keeper.coin(slot(number)?)?)),
        Call::Value(row, place) => return Ok(Output::Value(keeper.value(run(row, place)?)?)),
    }
    Ok(Output::Nothing)
}

// keeper.new #capacity,#kind
pub(crate) fn new(
    heap: Global,
    hashing: Option<Hashing>,
    arguments: &[Argument],
) -> Result<AnyKeeper, Fault> {
    let [Argument::Number(capacity), Argument::Number(kind)] = arguments else {
        return Err(Fault::Mismatched);
    };
    let capacity = count(*capacity)?;
    match (hashing, kind) {
        (None, 0 | 1) => Err(Fault::NoCompression),
        (Some(Hashing::Blake2s), 0) => Ok(Choice::BareBlake2s(Bare::new(heap, capacity)?)),
        (Some(Hashing::Blake2s), 1) => Ok(Choice::FullBlake2s(Full::new(heap, capacity)?)),
        (Some(Hashing::Tally), 0) => Ok(Choice::BareTally(Bare::new(heap, capacity)?)),
        (Some(Hashing::Tally), 1) => Ok(Choice::FullTally(Full::new(heap, capacity)?)),
        _ => Err(Fault::Mismatched),
    }
}

// What is shown of a keeper.
pub(crate) fn shown(keeper: &AnyKeeper) -> Shown {
    let count = match keeper {
        Choice::BareBlake2s(keeper) => keeper.count(),
        Choice::FullBlake2s(keeper) => keeper.count(),
        Choice::BareTally(keeper) => keeper.count(),
        Choice::FullTally(keeper) => keeper.count(),
    };
    Shown::Keeper { count }
}

// The other calls: keeper.append coin, keeper.blank #slot, keeper.refill #slot,coin, keeper.cut, keeper.coin #slot and
// keeper.value #row,#place.
pub(crate) fn ask(
    keeper: &mut AnyKeeper,
    name: Name,
    arguments: &[Argument],
) -> Result<Answer, Fault> {
    let call = read(name, arguments)?;
    let outcome = match keeper {
        Choice::BareBlake2s(keeper) => perform::<Blake2s, _>(keeper, call),
        Choice::FullBlake2s(keeper) => perform::<Blake2s, _>(keeper, call),
        Choice::BareTally(keeper) => perform::<Tally, _>(keeper, call),
        Choice::FullTally(keeper) => perform::<Tally, _>(keeper, call),
    };
    Ok(Answer::new(shown(keeper), outcome))
}
