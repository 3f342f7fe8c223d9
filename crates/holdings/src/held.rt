// Plain balances and open lots. Clauses see both together as the books of a ledger's state.
ghost use Rattle.std.specs.Prelude.{◌≡◌, ◌≤◌, true, OnOk, unsigned_abs};
ghost use Rattle.stock.specs.Promises.{map_ok};
ghost use Rattle.booking.specs.Balances.{balances_after, all_within, largest_balance};
ghost use Rattle.balances.specs.Stages.{weighed};
ghost use Rattle.books.specs.Holdings.{plain_balance, holding, holdings_under, is_empty_account};
ghost use Rattle.books.specs.Changes.{books_after};
ghost use Rattle.books.specs.States.{empty_ledger};
ghost use Rattle.holdings.specs.Bounds.{largest_holding};

use crate::account::{holding, is_empty_account};
use crate::under::holdings_under;
use balances::table::Balances;
use balances::weighing::weigh;
use booking::booked::Booked;
use booking::entries::Entries;
use booking::posting::Posting;
use chart::table::Chart;
use refusal::Refusal;
use std::marker::Model;
use stock::table::LotTable;

#[derive(Drop)]
pub struct Holdings {
    balances: Balances,
    lots: LotTable,
}

impl Model for Holdings {
    ghost use Rattle.books.specs.States.{Books};

    ghost Value = { Books };

    ghost view = { λ h. record { balances = h.balances; table = h.lots } };
}

impl Holdings {
    // Nothing is held.
    pub fn new() -> Holdings
        ensures { result ≡ empty_ledger.books }
    {
        Holdings {
            balances: Balances::new(),
            lots: LotTable::new(),
        }
    }

    // What is held once a booked draft is settled.
    pub fn settle(&mut self, booked: &Booked)
        requires { all_within (balances_after self.old.balances booked.now.1) ≡ true }
        ensures { self.new ≡ books_after self.old booked.now.0 booked.now.1 }
    {
        self.balances.add(&booked.entries);
        self.lots.copy_from(&booked.lots);
    }

    pub fn lots(&self) -> &LotTable
        ensures { result.now ≡ self.now.table }
    {
        &self.lots
    }

    // Fills the blank among the entries of a draft, or answers the first of 25 to 27 that it meets.
    // `own` is the own commodity of the blank's account.
    pub fn weigh(
        &self,
        postings: &[Posting],
        entries: &mut Entries,
        own: Option<u8>,
    ) -> Result<(), Refusal>
        ensures weighed { map_ok (λ _. entries.new) result ≡ weighed postings.now own self.now.balances entries.old }
        ensures within { OnOk result (all_within (balances_after self.now.balances entries.new) ≡ true) }
    {
        weigh(postings, entries, own, &self.balances)
    }

    // An account's plain balance.
    pub fn plain_balance(&self, account: u16, commodity: u8) -> i64
        ensures value { result ≡ plain_balance self.now account commodity }
        ensures small { unsigned_abs result ≤ largest_balance }
    {
        self.balances.balance(account, commodity)
    }

    // An account's plain balance and the units of its open lots.
    pub fn holding(&self, account: u16, commodity: u8) -> i64
        ensures value { result ≡ holding self.now account commodity }
        ensures small { unsigned_abs result ≤ largest_holding }
    {
        holding(&self.balances, &self.lots, account, commodity)
    }

    // Whether an account has no open lot and no plain balance but 0.
    pub fn is_empty_account(&self, account: u16) -> bool
        ensures { result ≡ is_empty_account self.now account }
    {
        is_empty_account(&self.balances, &self.lots, account)
    }

    // The holdings, in a commodity, of the accounts of a chart that lie under a name.
    pub fn holdings_under(&self, chart: &Chart, name: &[u8], commodity: u8) -> i64
        ensures { result ≡ holdings_under self.now name.now commodity 1 chart.now.accounts }
    {
        holdings_under(chart, &self.balances, &self.lots, name, commodity)
    }
}
