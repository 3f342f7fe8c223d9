// Postings as a draft keeps them. Nothing is known of their ranges here.
use lots::rows::Cost;

// What a posting asks for. Amounts and units are hundredths; the braces give a cost, a lot date, both or nothing.
#[derive(Clone, Copy, PartialEq, Eq, Debug)]
pub enum PostingKind {
    // An amount that is found when the draft is settled.
    Blank,
    Plain {
        amount: i32,
        commodity: u8,
    },
    // Without a lot date, the transaction's date is taken.
    Purchase {
        units: u32,
        commodity: u8,
        cost: Cost,
        date: Option<u32>,
    },
    Reduction {
        units: u32,
        commodity: u8,
        cost: Option<Cost>,
        date: Option<u32>,
    },
}

// A posting with its source number and the number of its account, from 1.
#[derive(Clone, Copy, PartialEq, Eq, Debug)]
pub struct Posting {
    pub line: u32,
    pub account: u16,
    pub kind: PostingKind,
}
