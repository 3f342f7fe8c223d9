// What can be asked of a ledger. Questions change nothing and never show a draft.
ghost use Rattle.std.specs.Prelude.{◌≡◌, ◌+◌, ◌≤◌, length, not};
ghost use Rattle.record.specs.Layout.{most_rows};
ghost use Rattle.refusal.specs.Refusing.{unless};
ghost use Rattle.books.specs.Conditions.{nothing_there};
ghost use Rattle.books.specs.Refusals.{first_fault_met};
ghost use Rattle.books.specs.Questions.{question_tests, holding_of, plain_balance_of, counts_of, lot_of};

use crate::Ledger;
use crate::fault::reported;
use books::account::Account;
use books::name::Name;
use books::outcome::Counts;
use drafting::checks::refuse_unless;
use lots::policy::Policy;
use lots::rows::LotRow;
use refusal::{Fault, Refusal};

impl<P: Policy> Ledger<P> {
    // Whether an account and a commodity of these numbers are there; both are counted from 1.
    fn has(&self, account: u16, commodity: u8) -> bool
        ensures { result ≡ not (nothing_there self.now.state.names account commodity) }
    {
        let opened = (1..=self.chart.accounts()).contains(&usize::from(account));
        opened && (1..=self.chart.commodities()).contains(&usize::from(commodity))
    }

    fn check_there(&self, account: u16, commodity: u8) -> Result<(), Fault>
        ensures { result ≡ unless (first_fault_met (question_tests self.now.state account commodity)) tt }
    {
        let there = refuse_unless(self.has(account, commodity), Refusal::NothingThere);
        reported(0, there)
    }

    // The commodities as declared: number n is at place n - 1.
    pub fn commodities(&self) -> &[Name]
        ensures listed { result.now ≡ self.now.state.names.commodities }
        ensures few { length result.now ≤ 16 }
    {
        self.chart.commodity_list()
    }

    // The accounts as opened, closed ones among them: number n is at place n - 1.
    pub fn accounts(&self) -> &[Account]
        ensures listed { result.now ≡ self.now.state.names.accounts }
        ensures few { length result.now ≤ 64 }
    {
        self.chart.account_list()
    }

    // The plain balance and the units of the open lots.
    pub fn holding(&self, account: u16, commodity: u8) -> Result<i64, Fault>
        ensures { result ≡ holding_of self.now.state account commodity }
    {
        self.check_there(account, commodity)?;
        Ok(self.holdings.holding(account, commodity))
    }

    pub fn plain_balance(&self, account: u16, commodity: u8) -> Result<i64, Fault>
        ensures { result ≡ plain_balance_of self.now.state account commodity }
    {
        self.check_there(account, commodity)?;
        Ok(self.holdings.plain_balance(account, commodity))
    }

    pub fn counts(&self) -> Counts
        ensures counted { result ≡ counts_of self.now.state }
        ensures transactions { self.now.state.transactions ≤ self.now.state.rows }
        ensures rows { self.now.state.rows ≤ most_rows }
        ensures serials { self.now.state.books.table.next ≤ self.now.state.rows + 1 }
    {
        Counts {
            commodities: self.chart.commodities(),
            accounts: self.chart.accounts(),
            lots: self.holdings.lots().lots().len(),
            transactions: self.transactions,
            rows: self.rows,
            next: self.holdings.lots().next_serial(),
        }
    }

    // The open lots in the order of their serials.
    pub fn lots(&self) -> &[LotRow]
        ensures { result.now ≡ self.now.state.books.table.lots }
    {
        self.holdings.lots().lots()
    }

    // The open lot that bears a serial.
    pub fn lot(&self, serial: u32) -> Result<LotRow, Fault>
        ensures { result ≡ lot_of self.now.state serial }
    {
        self.holdings
            .lots()
            .lot(serial)
            .ok_or(Refusal::NothingThere.on(0))
    }
}
