// The commodities as declared and the accounts as opened: found by name, added, closed.
#![tactic(auto)]

pub mod table;
