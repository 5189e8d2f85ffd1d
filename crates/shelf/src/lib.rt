// What a wallet holds beside its history: count, roots and shelf. Nothing here allocates.
#![tactic(auto)]

mod calls;
pub mod close;
mod edit;
pub mod held;
mod lookup;
pub mod state;
pub mod table;
