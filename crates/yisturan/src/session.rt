// What the lines of a script work on, and the calls that they make.
use crate::arguments::{Argument, only_bytes, only_number};
use crate::bridges::AnyBridge;
use crate::fault::*;
use crate::hashing::Hashing;
use crate::keepers::AnyKeeper;
use crate::request::{Call, Request};
use crate::{blocks, bridges, keepers, places, request, wallets};
use answer::{Answer, Output, Shown};
use compression::Compression;
use std::alloc::Global;
use wallet::Wallet;

// What calls of one line leave for those of the next: the keeper, the bridge, and whether a line has made a wallet. The wallet itself has
// its marks lent, so it stands beside them. The bridge, with its table of marks, lies in a box: a script that has none pays no stack for it.
#[derive(Drop)]
pub(crate) struct Session {
    keeper: Option<AnyKeeper>,
    bridge: Option<Box<AnyBridge>>,
    has_wallet: bool,
}

// The wallet that a line asks for.
#[derive(Clone, Copy)]
pub(crate) struct NewWallet {
    pub(crate) hashing: Hashing,
    pub(crate) places: u64,
}

// What comes of a line.
#[derive(Drop)]
pub(crate) enum Reply {
    Answer(Answer),
    NewWallet(NewWallet),
}

// blake2s message
fn digest(arguments: &[Argument]) -> Result<Answer, Fault> {
    let output = blake2s::digest(only_bytes(arguments)?).map(Output::Digest);
    Ok(Answer::new(Shown::Nothing, output))
}

// new #places
fn new_wallet(hashing: Option<Hashing>, arguments: &[Argument]) -> Result<NewWallet, Fault> {
    let places = only_number(arguments)?;
    let hashing = hashing.ok_or(Fault::NoCompression)?;
    Ok(NewWallet { hashing, places })
}

impl Session {
    pub(crate) fn new() -> Session {
        Session {
            keeper: None,
            bridge: None,
            has_wallet: false,
        }
    }

    fn new_keeper(
        &mut self,
        heap: Global,
        hashing: Option<Hashing>,
        arguments: &[Argument],
    ) -> Result<Answer, Fault> {
        let keeper = keepers::new(heap, hashing, arguments)?;
        let shown = keepers::shown(&keeper);
        self.keeper = Some(keeper);
        Ok(Answer::new(shown, Ok(Output::Nothing)))
    }

    fn new_bridge(
        &mut self,
        heap: Global,
        hashing: Option<Hashing>,
        arguments: &[Argument],
    ) -> Result<Answer, Fault> {
        let bridge = bridges::new(heap, hashing, arguments)?;
        let shown = bridges::shown(&bridge, bridges::room(heap)?);
        self.bridge = Some(Box::new(heap, bridge)?);
        Ok(Answer::new(shown, Ok(Output::Nothing)))
    }

    fn ask_keeper(&mut self, name: keepers::Name, arguments: &[Argument]) -> Result<Answer, Fault> {
        let keeper = self.keeper.as_mut().ok_or(Fault::NoKeeper)?;
        keepers::ask(keeper, name, arguments)
    }

    fn ask_bridge(
        &mut self,
        heap: Global,
        name: bridges::Name,
        arguments: &[Argument],
    ) -> Result<Answer, Fault> {
        let bridge = self.bridge.as_mut().ok_or(Fault::NoBridge)?;
        bridges::ask(heap, bridge, name, arguments)
    }

    // Makes the call that a line names. A new call is a name, a case of `Call`, and a function that takes its arguments apart.
    pub(crate) fn reply<C: Compression>(
        &mut self,
        heap: Global,
        wallet: &mut Wallet<C>,
        line: &str,
    ) -> Result<Reply, Fault> {
        let Request {
            hashing,
            call,
            arguments,
        } = request::read(heap, line)?;
        let arguments = arguments.as_slice();
        // Which call is made is read from text, so it is a case; closures in its place would only hide these names.
        let answer = match call {
            Call::Blake2s => digest(arguments)?,
            Call::Read => blocks::read_counts(arguments)?,
            Call::Entries => blocks::list_entries(heap, arguments)?,
            Call::Compose => blocks::compose_block(heap, arguments)?,
            Call::Place => places::locate(arguments)?,
            Call::Needed => places::list_needed(heap, arguments)?,
            Call::NewKeeper => self.new_keeper(heap, hashing, arguments)?,
            Call::Keeper(name) => self.ask_keeper(name, arguments)?,
            Call::NewBridge => self.new_bridge(heap, hashing, arguments)?,
            Call::Bridge(name) => self.ask_bridge(heap, name, arguments)?,
            Call::NewWallet => {
                let new = new_wallet(hashing, arguments)?;
                self.has_wallet = true;
                return Ok(Reply::NewWallet(new));
            }
            Call::Wallet(_) if !self.has_wallet => return Err(Fault::NoWallet),
            Call::Wallet(name) => wallets::ask(heap, wallet, name, arguments)?,
        };
        Ok(Reply::Answer(answer))
    }
}
