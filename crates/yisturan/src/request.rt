// What a line asks for.
use crate::arguments::Argument;
use crate::fault::*;
use crate::hashing::Hashing;
use crate::{arguments, bridges, hashing, keepers, wallets};
use std::alloc::Global;
use std::str::FromStr;

#[derive(Clone, Copy)]
pub(crate) enum Call {
    Blake2s,
    Read,
    Entries,
    Compose,
    Place,
    Needed,
    NewKeeper,
    Keeper(keepers::Name),
    NewBridge,
    Bridge(bridges::Name),
    NewWallet,
    Wallet(wallets::Name),
}

impl FromStr for Call {
    type Err = Fault;

    fn from_str(name: &str) -> Result<Call, Fault> {
        match name {
            "blake2s" => Ok(Call::Blake2s),
            "read" => Ok(Call::Read),
            "entries" => Ok(Call::Entries),
            "compose" => Ok(Call::Compose),
            "place" => Ok(Call::Place),
            "needed" => Ok(Call::Needed),
            "keeper.new" => Ok(Call::NewKeeper),
            "bridge.new" => Ok(Call::NewBridge),
            "new" => Ok(Call::NewWallet),
            _ => {
                if let Some(call) = name.strip_prefix("keeper.") {
                    return Ok(Call::Keeper(call.parse::<keepers::Name>()?));
                }
                if let Some(call) = name.strip_prefix("bridge.") {
                    return Ok(Call::Bridge(call.parse::<bridges::Name>()?));
                }
                Ok(Call::Wallet(name.parse::<wallets::Name>()?))
            }
        }
    }
}

// A line, taken apart.
#[derive(Drop)]
pub(crate) struct Request {
    pub(crate) hashing: Option<Hashing>,
    pub(crate) call: Call,
    pub(crate) arguments: Vec<Argument>,
}

pub(crate) fn read(heap: Global, line: &str) -> Result<Request, Fault> {
    let mut fields = line.split(' ');
    let (Some(compression), Some(name), Some(text), None) = (
        fields.next(),
        fields.next(),
        fields.next(),
        fields.next(),
    ) else {
        return Err(Fault::Fields);
    };
    let hashing = hashing::read(compression)?;
    let call = name.parse::<Call>()?;
    let arguments = arguments::read(heap, text)?;
    Ok(Request {
        hashing,
        call,
        arguments,
    })
}
