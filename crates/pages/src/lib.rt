// How programs print what a ledger and its record hold.
#![tactic(auto)]

pub mod booked;
pub mod journal;
pub mod rows;
