// Lots, and the booking policies that say in which order they are drawn.
#![tactic(auto)]

pub mod lot;
pub mod policy;
pub mod rows;
