// The plain values of the ledger: names, accounts as they are kept, calls and what they answer.
// What the ledger is, and what each call answers and leaves, stands in specs/.
#![tactic(auto)]

pub mod account;
pub mod call;
pub mod laws;
pub mod name;
pub mod outcome;
