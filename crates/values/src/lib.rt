// The values that the books are made of: amounts, dates, flags, and the names of commodities and accounts.
#![tactic(auto)]

pub mod amount;
pub mod date;
pub mod flag;
pub mod names;
