// What the fields of a line say: numbers, dates, names and quoted texts, or the fault of each with its place.
#![tactic(auto)]

pub mod date;
mod digits;
pub mod fault;
pub mod field;
pub mod name;
pub mod number;
pub mod quoted;
