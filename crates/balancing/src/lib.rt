// Whether the entries of a draft balance, and the amount of its blank.
#![tactic(auto)]

pub mod balance;
mod sums;
pub mod unbalanced;
