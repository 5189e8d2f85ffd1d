// What a full keeper costs under BLAKE2s. `count N` prints how many hashes N appends and N blanks work out; `time N` prints beside it how
// long they take, as a multiple of what the same hashes take alone, and the memory for each slot.
#![tactic(auto)]

mod hashes;
mod work;

use anyhow::{Error, anyhow};
use compression::hash::Blake2s;
use full_keeper::Full;
use hashes::Hashes;
use std::time::{Duration, Instant};
use std::{env, mem};
use utreexo::types::{Coin, Value};

// Of so many rounds the shortest time counts.
const ROUNDS: u8 = 5;

// The hashes of appending and of blanking so many slots.
fn count(rt: &HostRuntime, slots: u32) -> anyhow::Result<(Hashes, Hashes)> {
    let mut keeper = Full::<Blake2s>::new(rt.alloc(), slots)?;
    let appends = work::count_fill(&mut keeper, slots).map_err(Error::msg)?;
    let blanks = work::count_empty(&mut keeper, slots).map_err(Error::msg)?;
    Ok((appends, blanks))
}

// A part over a whole, in hundredths.
fn hundredths(part: u128, whole: u128) -> u128 {
    part.saturating_mul(100).checked_div(whole).unwrap_or(0)
}

fn print_count(rt: &HostRuntime, calls: &str, slots: u32, hashes: Hashes) -> anyhow::Result<()> {
    let total = hashes.total();
    let each = hundredths(total as u128, slots as u128);
    let whole = each / 100;
    let part = each % 100;
    println!(rt; "{slots} {calls}: {total} hashes, {whole}.{part:02} for each")?;
    Ok(())
}

// What was measured: appends, the hashes of these alone, blanks, the hashes of those alone.
#[derive(Clone, Copy)]
struct Times {
    appends: Duration,
    append_hashes: Duration,
    blanks: Duration,
    blank_hashes: Duration,
}

impl Times {
    fn least(self, other: Times) -> Times {
        Times {
            appends: self.appends.min(other.appends),
            append_hashes: self.append_hashes.min(other.append_hashes),
            blanks: self.blanks.min(other.blanks),
            blank_hashes: self.blank_hashes.min(other.blank_hashes),
        }
    }
}

// One round. The value at the end of the hashes goes on, so that none is left out.
fn measure(
    rt: &HostRuntime,
    slots: u32,
    hashes: (Hashes, Hashes),
    value: Value,
) -> anyhow::Result<(Times, Value)> {
    let mut keeper = Full::<Blake2s>::new(rt.alloc(), slots)?;
    let start = Instant::now(rt)?;
    work::fill(&mut keeper, slots).map_err(Error::msg)?;
    let appends = start.elapsed(rt)?;
    let start = Instant::now(rt)?;
    work::empty(&mut keeper, slots).map_err(Error::msg)?;
    let blanks = start.elapsed(rt)?;
    let start = Instant::now(rt)?;
    let value = work::hash(value, hashes.0);
    let append_hashes = start.elapsed(rt)?;
    let start = Instant::now(rt)?;
    let value = work::hash(value, hashes.1);
    let blank_hashes = start.elapsed(rt)?;
    let times = Times {
        appends,
        append_hashes,
        blanks,
        blank_hashes,
    };
    Ok((times, value))
}

fn print_time(
    rt: &HostRuntime,
    calls: &str,
    time: Duration,
    alone: Duration,
) -> anyhow::Result<()> {
    let times = hundredths(time.as_nanos(), alone.as_nanos());
    let whole = times / 100;
    let part = times % 100;
    let milliseconds = time.as_millis();
    println!(rt;
        "{calls}: {milliseconds} ms, {whole}.{part:02} times what their hashes take alone"
    )?;
    Ok(())
}

// The coins and the table, over the slots.
fn print_memory(rt: &HostRuntime, slots: u32) -> anyhow::Result<()> {
    let coins = slots as u128 * mem::size_of::<Option<Coin>>() as u128;
    let table = (2u128 << place::rows(slots)) * mem::size_of::<Option<Value>>() as u128;
    let each = hundredths(coins + table, slots as u128) / 100;
    println!(rt; "memory: {each} bytes for each slot")?;
    Ok(())
}

fn time(rt: &HostRuntime, slots: u32, hashes: (Hashes, Hashes)) -> anyhow::Result<()> {
    let (mut times, mut value) = measure(rt, slots, hashes, Value::default())?;
    for _ in 1..ROUNDS {
        let (other, next) = measure(rt, slots, hashes, value)?;
        times = times.least(other);
        value = next;
    }
    print_time(rt, "appends", times.appends, times.append_hashes)?;
    print_time(rt, "blanks", times.blanks, times.blank_hashes)?;
    print_memory(rt, slots)?;
    let end = value.w0;
    println!(rt; "the hashes end in {end:016x}")?;
    Ok(())
}

fn run(rt: &HostRuntime) -> anyhow::Result<()> {
    let mut words = env::args(rt)?;
    let _program = words.next();
    let (Some(task), Some(slots), None) = (words.next(), words.next(), words.next()) else {
        return Err(anyhow!("two words are asked for: count or time, and a number of slots"));
    };
    let slots = slots
        .as_str()
        .parse::<u32>()
        .map_err(|_| anyhow!("the number of slots is a number"))?;
    let hashes = count(rt, slots)?;
    print_count(rt, "appends", slots, hashes.0)?;
    print_count(rt, "blanks", slots, hashes.1)?;
    match task.as_str() {
        "count" => Ok(()),
        "time" => time(rt, slots, hashes),
        _ => Err(anyhow!("the first word is count or time")),
    }
}

fn main(rt: HostRuntime) -> anyhow::Result<()> {
    run(&rt)
}
