// Yisturan from the command line. Each word is a task, and the tasks are done in order; no word asks for the demonstration.
#![tactic(auto)]

mod arguments;
mod beside;
mod blocks;
mod bridges;
mod choice;
mod demonstration;
mod fault;
mod hashing;
mod hex;
mod keepers;
mod many;
mod places;
mod request;
mod script;
mod session;
mod wallets;

use anyhow::anyhow;
use demonstration::demonstrate;
use std::env;

fn perform(rt: &HostRuntime, task: &str) -> anyhow::Result<()> {
    // A task is a word from outside, so it is matched as text; closures in its place would only hide these names.
    match task {
        "demonstration" => demonstrate(rt),
        "script" => {
            script::run(rt)?;
            Ok(())
        }
        _ => Err(anyhow!(
            "the tasks are demonstration, and script, which reads calls from standard input"
        )),
    }
}

fn perform_all(rt: &HostRuntime) -> anyhow::Result<()> {
    let mut words = env::args(rt)?;
    let _program = words.next();
    let Some(first) = words.next() else {
        return demonstrate(rt);
    };
    perform(rt, first.as_str())?;
    for task in words {
        perform(rt, task.as_str())?;
    }
    Ok(())
}

fn main(rt: HostRuntime) -> anyhow::Result<()> {
    perform_all(&rt)
}
