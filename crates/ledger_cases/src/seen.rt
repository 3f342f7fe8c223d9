// What can be seen of a ledger and its record: the answer to every question, and every byte.
use crate::fields::{HEADER_BYTES, ROW_BYTES};
use books::outcome::Counts;
use ledger::Ledger;
use lots::policy::Policy;
use lots::rows::LotRow;
use refusal::Fault;
use std::alloc::Global;

// As many as there can be; beyond those that are there the answer is a refusal.
const MOST_ACCOUNTS: u16 = 64;

const MOST_COMMODITIES: u8 = 16;

#[derive(Clone, Copy, PartialEq, Eq)]
struct Balances {
    holding: Result<i64, Fault>,
    plain: Result<i64, Fault>,
}

// What may change: nothing, what is declared and opened, the record's header, what is booked and written, or the whole record.
#[derive(Clone, Copy)]
pub enum Change {
    Nothing,
    Names,
    Header,
    Bookings,
    Record,
}

#[derive(Drop)]
pub struct Seen {
    counts: Counts,
    balances: Vec<Balances>,
    lots: Vec<Result<LotRow, Fault>>,
    book: Vec<u8>,
}

// The offset behind so many rows.
fn first_free(rows: u32) -> usize {
    (rows as usize)
        .saturating_mul(ROW_BYTES)
        .saturating_add(HEADER_BYTES)
}

fn push_balances<P: Policy>(
    ledger: &Ledger<P>,
    account: u16,
    balances: &mut Vec<Balances>,
) -> anyhow::Result<()> {
    for commodity in 1..=MOST_COMMODITIES {
        balances.push(Balances {
            holding: ledger.holding(account, commodity),
            plain: ledger.plain_balance(account, commodity),
        })?;
    }
    Ok(())
}

fn balances_of<P: Policy>(heap: Global, ledger: &Ledger<P>) -> anyhow::Result<Vec<Balances>> {
    let mut balances = Vec::new(heap);
    for account in 1..=MOST_ACCOUNTS {
        push_balances(ledger, account, &mut balances)?;
    }
    Ok(balances)
}

fn lots_of<P: Policy>(
    heap: Global,
    ledger: &Ledger<P>,
) -> anyhow::Result<Vec<Result<LotRow, Fault>>> {
    let mut lots = Vec::new(heap);
    for serial in 1..=ledger.counts().next {
        lots.push(ledger.lot(serial))?;
    }
    Ok(lots)
}

impl Seen {
    pub(crate) fn look<P: Policy>(
        heap: Global,
        ledger: &Ledger<P>,
        book: &[u8],
    ) -> anyhow::Result<Seen> {
        Ok(Seen {
            counts: ledger.counts(),
            balances: balances_of(heap, ledger)?,
            lots: lots_of(heap, ledger)?,
            book: book.to_vec(heap)?,
        })
    }

    fn same_answers(&self, before: &Seen) -> bool {
        self.counts == before.counts
            && self.balances.as_slice() == before.balances.as_slice()
            && self.same_lots(before)
    }

    fn same_lots(&self, before: &Seen) -> bool {
        self.lots.as_slice() == before.lots.as_slice()
    }

    fn same_bytes(&self, before: &Seen) -> bool {
        self.book.as_slice() == before.book.as_slice()
    }

    // A balance of what was not there before is a new answer; every other is as it was.
    fn same_balances(&self, before: &Seen) -> bool {
        self.balances
            .iter()
            .zip(before.balances.iter())
            .all(|(now, then)| then.holding.is_err() || now == then)
    }

    // What is booked is counted as it was, whatever is named.
    fn same_bookings(&self, before: &Seen) -> bool {
        let counts = Counts {
            commodities: self.counts.commodities,
            accounts: self.counts.accounts,
            ..before.counts
        };
        self.counts == counts && self.same_balances(before) && self.same_lots(before)
    }

    // Beside the header, only the rows written since are other bytes.
    fn same_beside_rows(&self, before: &Seen) -> bool {
        let old = first_free(before.counts.rows);
        let new = first_free(self.counts.rows);
        self.book.get(HEADER_BYTES..old) == before.book.get(HEADER_BYTES..old)
            && self.book.get(new..) == before.book.get(new..)
    }

    // Whether no more than this has changed.
    pub(crate) fn keeps_but(&self, change: Change, before: &Seen) -> bool {
        match change {
            Change::Nothing => self.same_answers(before) && self.same_bytes(before),
            Change::Names => self.same_bookings(before) && self.same_bytes(before),
            Change::Header => self.same_answers(before) && self.same_beside_rows(before),
            Change::Bookings => self.same_beside_rows(before),
            Change::Record => self.same_answers(before),
        }
    }
}
