// What calls and questions answer.
use refusal::Fault;

// No `Result`: what calls answer one after another is one list, and definitions and the law go by these cases.
#[derive(Clone, Copy, PartialEq, Eq, Debug)]
pub enum Outcome {
    // The number of the commodity, and of the account, from 1.
    Declared(u8),
    Opened(u16),
    // The number of the slip.
    Begun(u32),
    // The number of the transaction.
    Settled(u32),
    // An assertion that holds, a closing, a posting, a tearing, a header written.
    Done,
    Refused(Fault),
}

// How many there are, and the serial of the lot that is opened next.
#[derive(Clone, Copy, PartialEq, Eq, Debug)]
pub struct Counts {
    pub commodities: usize,
    pub accounts: usize,
    pub lots: usize,
    pub transactions: u32,
    pub rows: u32,
    pub next: u32,
}
