// Answers to the calls of a script, and how they are printed.
#![tactic(auto)]

pub mod hex;
mod print;
pub mod roots;

ghost use Rattle.std.specs.Prelude.{◌≡◌, Some, None, MatchResult};
ghost use Rattle.answer.specs.declared.Output.TheVariants.{Nothing};

use block::entry::Counts;
use place::Node;
use refusal::Refusal;
use utreexo::types::{Coin, Input, Position, Slot, Value};

// What a call gave.
#[derive(Drop)]
pub enum Output {
    Nothing,
    Digest([u8; 32]),
    Counts(Counts),
    // a row and place, and the position of the root above
    Place(Node, Position),
    Needed(Vec<Position>),
    // a readable block, of which the entries are printed
    Entries(Counts, Vec<u8>),
    // a whole output buffer
    Buffer(Vec<u8>),
    // the coin of a slot
    Coin(Option<Coin>),
    // the value over a run
    Value(Option<Value>),
    // the slot of a coin
    Slot(Option<Slot>),
    // a challenge: the block stands
    Stands,
    // a challenge: at this position the own input and the claimed one differ
    Differs {
        position: Position,
        own: Input,
        claimed: Input,
    },
}

// What is shown of a wallet, a bridge or a keeper after a call. Roots go by row. They lie in a box: most answers have none, and every answer
// that is made or moved would be as large as they are.
#[derive(Drop)]
pub enum Shown {
    // the call is of none of them
    Nothing,
    Keeper {
        count: u32,
    },
    Bridge {
        count: u32,
        roots: Box<[Option<Value>; 32]>,
    },
    Wallet {
        count: u32,
        roots: Box<[Option<Value>; 32]>,
        shelf: Vec<Position>,
    },
}

// The answer to a call: its refusal, if it was refused, what is shown, and what it gave. A refused call may give something: its output
// buffer.
#[derive(Drop)]
pub struct Answer {
    pub refusal: Option<Refusal>,
    pub shown: Shown,
    pub output: Output,
}

impl Answer {
    // Of a call that gives something or is refused.
    pub fn new(shown: Shown, outcome: Result<Output, Refusal>) -> Answer
        ensures shown { result.shown ≡ shown }
        ensures outcome { MatchResult outcome (λ output. (result.refusal ≡ None) × (result.output ≡ output)) (λ refusal. (result.refusal ≡ Some refusal) × (result.output ≡ Nothing)) }
    {
        match outcome {
            Ok(output) => Answer {
                refusal: None,
                shown,
                output,
            },
            Err(refusal) => Answer {
                refusal: Some(refusal),
                shown,
                output: Output::Nothing,
            },
        }
    }
}
