// How many commodities and accounts there are at most; both are counted from 1.
pub const MOST_COMMODITIES: usize = 16;

pub const MOST_ACCOUNTS: usize = 64;
