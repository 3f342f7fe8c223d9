// Tests of the plain arguments of a call.
#![tactic(auto)]

pub mod checks;
pub mod given;
