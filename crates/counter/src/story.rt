// The calls of a small shop: it buys sensors at three costs, sells some, and gets a few things wrong on the way. The source number of a call is
// its number in the list.
use books::call::{Call, GivenAmount, GivenBraces, GivenCost};
use values::flag::Flag;

pub const CALL_COUNT: usize = 30;

// Room for the header and eleven rows.
pub const BOOK_LEN: usize = 420;

// A byte too short for the header and ten rows.
const TOO_SHORT: usize = 383;

const STOCK: &[u8] = b"Assets:Stock";

const BANK: &[u8] = b"Assets:Bank";

const SALES: &[u8] = b"Income:Sales";

// Braces that name no lot.
const ANY: GivenBraces<'static> = GivenBraces {
    cost: None,
    date: None,
};

fn declare(source: u32, name: &'static [u8]) -> Call<'static> {
    Call::Declare {
        source,
        date: 20240301,
        name,
    }
}

fn open(source: u32, name: &'static [u8], own: Option<&'static [u8]>) -> Call<'static> {
    Call::Open {
        source,
        date: 20240301,
        name,
        own,
    }
}

fn assert(
    source: u32,
    account: &'static [u8],
    amount: i32,
    commodity: &'static [u8],
) -> Call<'static> {
    Call::Assert {
        source,
        date: 20240314,
        account,
        amount,
        commodity,
    }
}

fn begin(source: u32, date: u32, flag: Flag) -> Call<'static> {
    Call::Begin { source, date, flag }
}

fn blank(slip: u32, source: u32, account: &'static [u8]) -> Call<'static> {
    Call::Post {
        slip,
        source,
        account,
        amount: None,
    }
}

// A plain posting.
fn plain(
    slip: u32,
    source: u32,
    account: &'static [u8],
    number: i32,
    commodity: &'static [u8],
) -> Call<'static> {
    Call::Post {
        slip,
        source,
        account,
        amount: Some(GivenAmount {
            number,
            commodity,
            braces: None,
        }),
    }
}

// Sensors that come into the stock or leave it.
fn sensors(slip: u32, source: u32, number: i32, braces: GivenBraces<'static>) -> Call<'static> {
    Call::Post {
        slip,
        source,
        account: STOCK,
        amount: Some(GivenAmount {
            number,
            commodity: b"SENSOR",
            braces: Some(braces),
        }),
    }
}

// Bought for so much each, and on another day than the transaction's where one is given.
fn bought(number: i32, date: Option<u32>) -> GivenBraces<'static> {
    let cost = GivenCost {
        number,
        commodity: b"EUR",
    };
    GivenBraces {
        cost: Some(cost),
        date,
    }
}

fn settle(slip: u32, lent: usize) -> Call<'static> {
    Call::Settle { slip, lent }
}

pub(crate) fn calls() -> [Call<'static>; CALL_COUNT] {
    [
        declare(1, b"EUR"),
        declare(2, b"SENSOR"),
        open(3, STOCK, None),
        open(4, BANK, Some(b"EUR")),
        open(5, SALES, None),
        // opened already
        open(6, BANK, Some(b"EUR")),
        // ten sensors at 24.50
        begin(7, 20240304, Flag::Complete),
        sensors(1, 8, 1000, bought(2450, None)),
        blank(1, 9, BANK),
        settle(1, BOOK_LEN),
        // four at 26.00 and six at 25.00, which arrive a day later; the bank takes no sensors
        begin(11, 20240311, Flag::Incomplete),
        sensors(2, 12, 400, bought(2600, None)),
        sensors(2, 13, 600, bought(2500, Some(20240312))),
        plain(2, 14, BANK, -1000, b"SENSOR"),
        blank(2, 15, BANK),
        settle(2, BOOK_LEN),
        // all sensors are there; the bank is a euro off
        assert(17, STOCK, 2000, b"SENSOR"),
        assert(18, BANK, -50000, b"EUR"),
        // a sale with nothing sold
        begin(19, 20240315, Flag::Complete),
        plain(3, 20, BANK, 56000, b"EUR"),
        settle(3, BOOK_LEN),
        Call::Tear { slip: 3 },
        // four and twelve sensors sold for 560.00, at first with a record too short
        begin(23, 20240315, Flag::Complete),
        sensors(3, 24, -400, ANY),
        sensors(3, 25, -1200, ANY),
        plain(3, 26, BANK, 56000, b"EUR"),
        blank(3, 27, SALES),
        settle(3, TOO_SHORT),
        settle(3, BOOK_LEN),
        // four sensors are left
        Call::Close {
            source: 30,
            date: 20240329,
            account: STOCK,
        },
    ]
}
