// A list of at most N elements, kept in place: no call allocates.
#![tactic(auto)]

pub mod list;
