// Plain balances by account and commodity, and what a booked draft comes to once it is weighed.
#![tactic(auto)]

pub mod table;
pub mod weighing;
