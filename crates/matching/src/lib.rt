// Which lots a reduction means, what they hold, and which of them comes first.
#![tactic(auto)]

pub mod laws;
pub mod search;
pub mod wanted;
