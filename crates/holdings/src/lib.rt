// What accounts hold: the plain balances and the open lots, and what is asked of both.
#![tactic(auto)]

pub mod account;
pub mod held;
pub mod under;
