// Reading a journal: each line in its turn, as calls on a ledger.
#![tactic(auto)]

mod asked;
pub mod phase;
pub mod reader;
pub mod step;
