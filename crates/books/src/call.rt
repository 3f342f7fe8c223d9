// The calls on a ledger with their arguments. Arguments are plain, so that any text and any figure can be handed over:
// a name is bytes, a date is its number, amounts and costs are hundredths.
use values::flag::Flag;

// A unit cost with the name of its commodity.
#[derive(Clone, Copy)]
pub struct GivenCost<'a> {
    pub number: i32,
    pub commodity: &'a [u8],
}

// Braces hold a cost, a lot date, both, or nothing.
#[derive(Clone, Copy)]
pub struct GivenBraces<'a> {
    pub cost: Option<GivenCost<'a>>,
    pub date: Option<u32>,
}

// What is posted where the posting is no blank.
#[derive(Clone, Copy)]
pub struct GivenAmount<'a> {
    pub number: i32,
    pub commodity: &'a [u8],
    pub braces: Option<GivenBraces<'a>>,
}

// Each directive call has its source number. A slip goes by its number, the record by how many of its bytes are lent.
#[derive(Clone, Copy)]
pub enum Call<'a> {
    Declare {
        source: u32,
        date: u32,
        name: &'a [u8],
    },
    Open {
        source: u32,
        date: u32,
        name: &'a [u8],
        own: Option<&'a [u8]>,
    },
    Assert {
        source: u32,
        date: u32,
        account: &'a [u8],
        amount: i32,
        commodity: &'a [u8],
    },
    Close {
        source: u32,
        date: u32,
        account: &'a [u8],
    },
    Begin {
        source: u32,
        date: u32,
        flag: Flag,
    },
    // Without an amount, a blank.
    Post {
        slip: u32,
        source: u32,
        account: &'a [u8],
        amount: Option<GivenAmount<'a>>,
    },
    Settle {
        slip: u32,
        lent: usize,
    },
    Tear {
        slip: u32,
    },
    WriteHeader {
        lent: usize,
    },
}
