// How answers are printed.
use crate::hex::*;
use crate::roots::*;
use crate::{Answer, Output, Shown};
use block::entry::{Counts, Entry};
use block::read;
use std::fmt;
use utreexo::record::Record;
use utreexo::types::{Input, Position};

// One entry: its kind, its offset and its bytes.
fn write_entry<W: fmt::Write>(
    f: &mut fmt::Formatter<W>,
    kind: &str,
    at: usize,
    bytes: &[u8],
) -> fmt::Result {
    let separator = if at > 6 { ";" } else { "" };
    write!(f, "{separator}{kind}@{at}:{}", Hex(bytes))
}

// All entries of a readable block, as the reader hands them out.
fn write_entries<W: fmt::Write>(
    f: &mut fmt::Formatter<W>,
    counts: Counts,
    block: &[u8],
) -> fmt::Result {
    if block.len() <= 6 {
        return write!(f, "-");
    }
    let (_, mut rest) = block.split_at(6);
    let mut offset = 0;
    // An iterator over the reader is no plainer: it takes a struct and the fact that it ends, and the end stays a case of the entry.
    for _ in 0..block.len() {
        let (entry, at, after) = read::next(counts, offset, rest);
        match entry {
            Entry::Target(bytes) => write_entry(f, "T", at, bytes)?,
            Entry::Spent(bytes) => write_entry(f, "S", at, bytes)?,
            Entry::Hash(bytes) => write_entry(f, "H", at, bytes)?,
            Entry::New(bytes) => write_entry(f, "N", at, bytes)?,
            Entry::End => return Ok(()),
        }
        offset = at;
        rest = after;
    }
    Ok(())
}

// Positions with commas between.
fn write_positions<W: fmt::Write>(
    f: &mut fmt::Formatter<W>,
    positions: &[Position],
    none: &str,
) -> fmt::Result {
    let Some((first, others)) = positions.split_first() else {
        return write!(f, "{none}");
    };
    write!(f, "{}", first.number)?;
    for position in others {
        write!(f, ",{}", position.number)?;
    }
    Ok(())
}

// L and a coin, or P and two values.
fn write_input<W: fmt::Write>(f: &mut fmt::Formatter<W>, input: &Input) -> fmt::Result {
    match input {
        Input::Leaf(coin) => write!(f, "L{}", Hex(&coin.to_bytes())),
        Input::Pair(left, right) => {
            write!(f, "P{}{}", Hex(&left.to_bytes()), Hex(&right.to_bytes()))
        }
    }
}

// A coin or a value, which may be absent.
fn write_record<W: fmt::Write, T: Record<32>>(
    f: &mut fmt::Formatter<W>,
    record: &Option<T>,
) -> fmt::Result {
    match record {
        Some(record) => write!(f, "{}", Hex(&record.to_bytes())),
        None => write!(f, "absent"),
    }
}

// Where a claim is not the forest's own, and the two inputs.
fn write_difference<W: fmt::Write>(
    f: &mut fmt::Formatter<W>,
    position: Position,
    own: &Input,
    claimed: &Input,
) -> fmt::Result {
    write!(f, "{}:", position.number)?;
    write_input(f, own)?;
    write!(f, ":")?;
    write_input(f, claimed)
}

impl fmt::Display for Output {
    fn fmt<W: fmt::Write>(&self, f: &mut fmt::Formatter<W>) -> fmt::Result {
        match self {
            Output::Nothing => write!(f, "-"),
            Output::Digest(digest) => write!(f, "{}", Hex(digest)),
            Output::Counts(counts) => {
                write!(f, "{},{},{}", counts.spent, counts.hashes, counts.coins)
            }
            Output::Place(node, root) => {
                write!(f, "{},{},{}", node.row, node.place, root.number)
            }
            Output::Needed(positions) => write_positions(f, positions.as_slice(), "none"),
            Output::Entries(counts, block) => write_entries(f, *counts, block.as_slice()),
            Output::Buffer(bytes) => write!(f, "{}", Hex(bytes.as_slice())),
            Output::Coin(coin) => write_record(f, coin),
            Output::Value(value) => write_record(f, value),
            Output::Slot(Some(slot)) => write!(f, "{}", slot.number),
            Output::Slot(None) => write!(f, "none"),
            Output::Stands => write!(f, "stands"),
            Output::Differs {
                position,
                own,
                claimed,
            } => write_difference(f, *position, own, claimed),
        }
    }
}

// Count, roots and shelf; - for what there is not.
impl fmt::Display for Shown {
    fn fmt<W: fmt::Write>(&self, f: &mut fmt::Formatter<W>) -> fmt::Result {
        match self {
            Shown::Nothing => write!(f, "- - -"),
            Shown::Keeper { count } => write!(f, "{count} - -"),
            Shown::Bridge { count, roots } => {
                let count = *count;
                write!(f, "{count} {} -", Roots { count, roots })
            }
            Shown::Wallet {
                count,
                roots,
                shelf,
            } => {
                let count = *count;
                write!(f, "{count} {} ", Roots { count, roots })?;
                write_positions(f, shelf.as_slice(), "-")
            }
        }
    }
}

// 0 stands for no refusal.
impl fmt::Display for Answer {
    fn fmt<W: fmt::Write>(&self, f: &mut fmt::Formatter<W>) -> fmt::Result {
        let number = self.refusal.map_or(0, |refusal| refusal.number());
        write!(f, "{number} {} {}", self.shown, self.output)
    }
}
