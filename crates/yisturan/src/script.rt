// Scripts: a line for each call, answered by the same line and what came of it.
use crate::hashing::Hashing;
use crate::session::{NewWallet, Reply, Session};
use crate::wallets;
use answer::{Answer, Output};
use compression::Compression;
use compression::hash::Blake2s;
use compression::tally::Tally;
use shelf::state::State;
use std::io;
use std::io::{BufRead, BufReader, Lines, Stdin};
use wallet::Wallet;

// The places for marks that are reserved once, and lent to one wallet after the other: one more than a wallet uses.
const MARKS: usize = 65;

type Input = Lines<BufReader<Stdin>>;

// Answers lines until one asks for a new wallet, and gives that line and what it asks for, or None at the end. A comment, which begins
// with `;`, and an empty line are printed as they are.
fn answer_lines<C: Compression>(
    rt: &HostRuntime,
    lines: &mut Input,
    session: &mut Session,
    wallet: &mut Wallet<C>,
) -> io::Result<Option<(String, NewWallet)>> {
    for line in lines.by_ref() {
        let line = line?;
        let text = line.as_str();
        if text.is_empty() || text.starts_with(";") {
            println!(rt; "{text}")?;
        } else {
            match session.reply(rt.alloc(), wallet, text) {
                Ok(Reply::Answer(answer)) => println!(rt; "{text} {answer}")?,
                Ok(Reply::NewWallet(new)) => return Ok(Some((line, new))),
                Err(fault) => println!(rt; "! {fault}")?,
            }
        }
    }
    Ok(None)
}

// Answers the line that asks for a wallet, and those after it until one asks for another.
fn answer_over_wallet<C: Compression>(
    rt: &HostRuntime,
    lines: &mut Input,
    session: &mut Session,
    line: &str,
    marks: &mut [State],
) -> io::Result<Option<(String, NewWallet)>> {
    let mut wallet = Wallet::<C>::new(marks);
    let shown = wallets::shown(rt.alloc(), &wallet)?;
    println!(rt; "{line} {}", Answer::new(shown, Ok(Output::Nothing)))?;
    answer_lines(rt, lines, session, &mut wallet)
}

// Answers all lines, over one wallet after the other.
fn answer_all(rt: &HostRuntime, lines: &mut Input, marks: &mut [State]) -> io::Result<()> {
    let mut session = Session::new();
    // No call reaches this wallet, since no line has made it.
    let mut next = answer_lines(rt, lines, &mut session, &mut Wallet::<Tally>::new(&mut []))?;
    // Nothing says that an input ends, so turns are counted.
    for _ in 0..u64::MAX {
        let Some((line, new)) = next else {
            return Ok(());
        };
        let places = marks.len().min(new.places as usize);
        let marks = &mut marks[..places];
        let line = line.as_str();
        next = match new.hashing {
            Hashing::Blake2s => answer_over_wallet::<Blake2s>(
                rt,
                lines,
                &mut session,
                line,
                marks,
            )?,
            Hashing::Tally => answer_over_wallet::<Tally>(rt, lines, &mut session, line, marks)?,
        };
    }
    Ok(())
}

// Answers each line of standard input.
pub(crate) fn run(rt: &HostRuntime) -> io::Result<()> {
    let mut lines = BufReader::new(rt.alloc(), rt.stdin())?.lines(rt.alloc());
    let mut marks = vec![in rt.alloc(); State::empty(); MARKS]?;
    answer_all(rt, &mut lines, marks.as_mut_slice())
}
