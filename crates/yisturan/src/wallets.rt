// Script calls on a wallet.
use crate::arguments::{Argument, buffer, no_arguments, only_bytes, only_number};
use crate::fault::*;
use answer::{Answer, Output, Shown};
use compression::Compression;
use refusal::Refusal;
use std::alloc::{AllocError, Global};
use std::str::FromStr;
use utreexo::types::Position;
use wallet::Wallet;

#[derive(Clone, Copy)]
pub(crate) enum Name {
    Take,
    Check,
    Watch,
    LetGo,
    Show,
    TakeBack,
}

impl FromStr for Name {
    type Err = Fault;

    fn from_str(name: &str) -> Result<Name, Fault> {
        match name {
            "take" => Ok(Name::Take),
            "check" => Ok(Name::Check),
            "watch" => Ok(Name::Watch),
            "let_go" => Ok(Name::LetGo),
            "show" => Ok(Name::Show),
            "take_back" => Ok(Name::TakeBack),
            _ => Err(Fault::Call),
        }
    }
}

// show #position,#length
fn show<C: Compression>(
    heap: Global,
    wallet: &Wallet<C>,
    arguments: &[Argument],
) -> Result<(Option<Refusal>, Output), Fault> {
    let [Argument::Number(number), Argument::Number(length)] = arguments else {
        return Err(Fault::Mismatched);
    };
    let mut out = buffer(heap, *length)?;
    let shown = wallet.show(Position { number: *number }, out.as_mut_slice());
    Ok((shown.err(), Output::Buffer(out)))
}

fn perform<C: Compression>(
    heap: Global,
    wallet: &mut Wallet<C>,
    name: Name,
    arguments: &[Argument],
) -> Result<(Option<Refusal>, Output), Fault> {
    let outcome = match name {
        Name::Take => wallet.take(only_bytes(arguments)?),
        Name::Check => wallet.check(only_bytes(arguments)?),
        Name::Watch => wallet.watch(only_bytes(arguments)?),
        Name::LetGo => {
            let number = only_number(arguments)?;
            wallet.let_go(Position { number })
        }
        Name::Show => return show(heap, wallet, arguments),
        Name::TakeBack => {
            no_arguments(arguments)?;
            wallet.take_back()
        }
    };
    Ok((outcome.err(), Output::Nothing))
}

// What is shown of a wallet.
pub(crate) fn shown<C: Compression>(heap: Global, wallet: &Wallet<C>) -> Result<Shown, AllocError> {
    let shelf = (0..wallet.shelf_len())
        .filter_map(|index| wallet.position(index))
        .collect(heap)?;
    Ok(Shown::Wallet {
        count: wallet.count(),
        roots: Box::new(heap, *wallet.roots())?,
        shelf,
    })
}

// take block, check block, watch block, let_go #position, show #position,#length and take_back. Kept out of line: a script without a
// wallet then pays no stack for its tables.
#[inline(never)]
pub(crate) fn ask<C: Compression>(
    heap: Global,
    wallet: &mut Wallet<C>,
    name: Name,
    arguments: &[Argument],
) -> Result<Answer, Fault> {
    let (refusal, output) = perform(heap, wallet, name, arguments)?;
    Ok(Answer {
        refusal,
        shown: shown(heap, wallet)?,
        output,
    })
}
