// A journal's text: cut into lines, and each line read into what it says or into its one fault.
#![tactic(auto)]

mod braces;
mod cursor;
pub mod directive;
mod directives;
pub mod fault;
pub mod journal;
pub mod line;
mod postings;
mod shapes;
