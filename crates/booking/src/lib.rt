// Booking the postings of a draft: each upon the lots that the one before left.
#![tactic(auto)]

pub mod booked;
pub mod draft;
pub mod entries;
pub mod entry;
pub mod limits;
pub mod posting;
pub mod postings;
pub mod ranged;
