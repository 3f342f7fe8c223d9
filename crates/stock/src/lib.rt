// The open lots: purchases, reductions and questions.
#![tactic(auto)]

pub mod table;
