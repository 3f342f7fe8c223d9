// The entries of a draft, each within the range of a row. A draft of 16 postings upon 256 lots gives at most 288:
// with each posting, entries and open lots together grow by at most 2.
ghost use Rattle.std.specs.Prelude.{◌≡◌, ◌+◌, ◌≤◌, ◌<◌, ◌∷◌, [], ◌++◌, true, length};
ghost use Rattle.std.specs.List.{list_all};
ghost use Rattle.stock.specs.Promises.{draw_in_range};
ghost use Rattle.booking.specs.Postings.{entry, draw_entries};
ghost use Rattle.booking.specs.Ranges.{entry_in_range, entry_kind_in_range};
ghost use Rattle.booking.specs.Rows.{rows_of};
ghost use Rattle.booking.specs.Weighing.{blank_account, fill};

use crate::entry::{Entry, EntryKind, Transaction};
use crate::ranged::{Ranged, RangedList};
use bounded::list::Bounded;
use matching::wanted::Draw;
use record::rows::{Row, RowKind};
use values::flag::Flag;

// The most entries of a draft.
pub const MOST_ENTRIES: usize = 288;

pub type Entries = RangedList<Entry, MOST_ENTRIES>;

// At most as many rows as there are entries.
pub type Rows = Bounded<Row, MOST_ENTRIES>;

impl Ranged for Entry {
    ghost in_range = { entry_in_range };

    fn filler() -> Entry {
        Entry {
            line: 0,
            kind: EntryKind::Unfilled { account: 0 },
        }
    }
}

// The account of the first blank.
pub fn blank_account(entries: &[Entry]) -> Option<u16>
    ensures { result ≡ blank_account entries.now }
{
    // no `find_map`: tried, and of what it finds no proof closed
    for entry in entries {
        if let EntryKind::Unfilled { account } = entry.kind {
            return Some(account);
        }
    }
    None
}

impl Entries {
    // One entry more.
    pub(crate) fn enter(&mut self, line: u32, kind: EntryKind)
        requires room { length self.old < 288 }
        requires ranged { entry_kind_in_range kind ≡ true }
        ensures { self.new ≡ self.old ++ (entry line kind ∷ []) }
    {
        self.push(Entry { line, kind }).unwrap();
    }

    // One entry more for each draw.
    pub(crate) fn enter_draws(&mut self, line: u32, draws: &[Draw])
        requires room { length self.old + length draws.now ≤ 288 }
        requires ranged { list_all draw_in_range draws.now ≡ true }
        ensures { self.new ≡ self.old ++ draw_entries line draws.now }
    {
        for draw in draws {
            self.enter(line, EntryKind::Drew(*draw));
        }
    }

    // The first blank becomes an amount of a commodity; no other entry changes.
    pub fn fill_blank(&mut self, amount: i32, commodity: u8)
        ensures filled { self.new ≡ fill amount commodity self.old }
        ensures few { (length self.old ≤ 288) × (length self.new ≤ 288) }
        ensures ranges { (list_all entry_in_range self.old ≡ true) × (list_all entry_in_range self.new ≡ true) }
    {
        let entries = self.as_slice();
        if let Some(place) = entries.iter().position(|entry| entry.kind.is_unfilled()) {
            let Entry { line, kind } = entries[place];
            self.put(
                place,
                Entry {
                    line,
                    kind: kind.filled_with(amount, commodity),
                },
            );
        }
    }

    // Lists one row for each entry, in order, whatever the list had.
    pub fn list_rows(&self, transaction: &Transaction, rows: &mut Rows)
        ensures listed { rows.new ≡ rows_of transaction.now self.now }
        ensures few { length self.now ≤ 288 }
        ensures ranges { list_all entry_in_range self.now ≡ true }
    {
        rows.clear();
        for entry in self.as_slice() {
            rows.push(entry.row(transaction)).unwrap();
        }
    }
}

// An empty list of rows.
pub fn no_rows() -> Rows
    ensures { result ≡ [] }
{
    Bounded::new(Row {
        line: 0,
        transaction: 0,
        date: 0,
        account: 0,
        commodity: 0,
        kind: RowKind::Plain,
        units: 0,
        flag: Flag::Complete,
    })
}
