// The wallet: count, roots, shelf and history, and its six calls. Nothing here allocates.
#![tactic(auto)]

mod calls;
mod runs;
mod step;
#[cfg(test)]
mod tests;
mod watch;

use compression::Compression;
use history::Ring;
use shelf::state::State;
use std::marker::PhantomData;

// What a wallet knows, under one compression, and its history: a ring of earlier states in a slice that is lent to it. Only its calls
// change it.
#[derive(Drop)]
pub struct Wallet<'a, C: Compression> {
    state: State,
    ring: Ring,
    marks: &'a mut [State],
    compression: PhantomData<C>,
}
