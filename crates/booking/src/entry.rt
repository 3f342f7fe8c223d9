// Entries: what a draft comes to, one for each row of the record.
ghost use Rattle.std.specs.Prelude.{◌≡◌, true};
ghost use Rattle.booking.specs.Ranges.{entry_in_range};
ghost use Rattle.booking.specs.Rows.{lot_fields, row_of};
ghost use Rattle.booking.specs.Weighing.{is_unfilled, filled_with};

use lots::rows::Key;
use matching::wanted::Draw;
use record::rows::{LotFields, Row, RowKind};
use values::flag::Flag;

// A blank is unfilled until the whole draft is weighed. A purchase bears the serial of the lot that its units came to.
#[derive(Clone, Copy, PartialEq, Eq, Debug)]
pub enum EntryKind {
    PlainAmount {
        account: u16,
        amount: i32,
        commodity: u8,
    },
    Unfilled {
        account: u16,
    },
    Filled {
        account: u16,
        amount: i32,
        commodity: u8,
    },
    Bought {
        key: Key,
        units: u32,
        serial: u32,
    },
    Drew(Draw),
}

// An entry with the source number of its posting.
#[derive(Clone, Copy, PartialEq, Eq, Debug)]
pub struct Entry {
    pub line: u32,
    pub kind: EntryKind,
}

// What all rows of one transaction share: its number, its date and its flag.
#[derive(Clone, Copy, PartialEq, Eq, Debug)]
pub struct Transaction {
    pub number: u32,
    pub date: u32,
    pub flag: Flag,
}

impl EntryKind {
    pub fn is_unfilled(&self) -> bool
        ensures { result ≡ is_unfilled self.now }
    {
        matches!(self, EntryKind::Unfilled { .. })
    }

    // A blank with its amount; any other entry as it is.
    pub fn filled_with(self, amount: i32, commodity: u8) -> EntryKind
        ensures { result ≡ filled_with amount commodity self }
    {
        match self {
            EntryKind::Unfilled { account } => EntryKind::Filled {
                account,
                amount,
                commodity,
            },
            other => other,
        }
    }
}

// A lot as its row states it.
fn lot_fields(key: &Key, serial: u32) -> LotFields
    ensures { result ≡ lot_fields key.now serial }
{
    LotFields {
        cost: key.cost.number,
        acquired: key.date,
        serial,
        currency: key.cost.commodity,
    }
}

impl Entry {
    // The row that the entry becomes. Units bought are above 0, units drawn below.
    pub fn row(&self, transaction: &Transaction) -> Row
        requires { entry_in_range self.now ≡ true }
        ensures { result ≡ row_of transaction.now self.now }
    {
        let (account, commodity, kind, units) = match self.kind {
            EntryKind::PlainAmount {
                account,
                amount,
                commodity,
            } => { (account, commodity, RowKind::Plain, amount) }
            EntryKind::Unfilled { account } => (account, 0, RowKind::FilledBlank, 0),
            EntryKind::Filled {
                account,
                amount,
                commodity,
            } => { (account, commodity, RowKind::FilledBlank, amount) }
            EntryKind::Bought { key, units, serial } => {
                let lot = lot_fields(&key, serial);
                (
                    key.account,
                    key.commodity,
                    RowKind::Purchase(lot),
                    units as i32,
                )
            }
            EntryKind::Drew(Draw { lot: from, units }) => {
                let lot = lot_fields(&from.key, from.serial);
                (
                    from.key.account,
                    from.key.commodity,
                    RowKind::Draw(lot),
                    -(units as i32),
                )
            }
        };
        Row {
            line: self.line,
            transaction: transaction.number,
            date: transaction.date,
            account,
            commodity,
            kind,
            units,
            flag: transaction.flag,
        }
    }
}
