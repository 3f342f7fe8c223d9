// Asserting balances and closing accounts.
ghost use Rattle.std.specs.Prelude.{◌≡◌, not, ◌-ℤ◌, if◌then◌else◌, Some, None};
ghost use Rattle.refusal.specs.Refusing.{first_met, unless};
ghost use Rattle.booking.specs.Weighing.{is_zero};
ghost use Rattle.books.specs.Calls.{asserting, closing};
ghost use Rattle.books.specs.Changes.{with_names, with_account_closed};
ghost use Rattle.books.specs.Holdings.{holdings_under};
ghost use Rattle.books.specs.Lookups.{any_under, open_account, number_or_0};
ghost use Rattle.ledger.specs.Answers.{carried_out};
ghost use Rattle.books.specs.declared.outcome.Outcome.TheVariants.{Done};
ghost use Rattle.books.specs.Refusals.{asserting_tests, closing_tests};
ghost use Rattle.ledger.specs.Answers.{outcome_of};
ghost use Rattle.ledger.specs.Kept.{in_state};

use crate::Ledger;
use crate::fault::reported;
use crate::rank::Rank;
use drafting::checks::{
    check_account_name, check_commodity_name, check_date, check_number, refuse_unless,
};
use lots::policy::Policy;
use refusal::{Fault, Refusal};

// Whether a sum of holdings is not the asserted amount.
fn differs(total: i64, amount: i32) -> bool
    ensures { result ≡ not (is_zero (total -ℤ amount)) }
{
    total != i64::from(amount)
}

impl<P: Policy> Ledger<P> {
    // What the accounts under a name hold of a commodity; none where no such account was ever opened.
    fn total_under(&self, account: &[u8], commodity: u8) -> Option<i64>
        ensures { result ≡ (if any_under self.now.state.names account.now then Some (holdings_under self.now.state.books account.now commodity 1 self.now.state.names.accounts) else None) }
    {
        self.chart.has_under(account).then(|| {
            self.holdings
                .holdings_under(&self.chart, account, commodity)
        })
    }

    fn check_asserting(
        &self,
        date: u32,
        account: &[u8],
        amount: i32,
        commodity: &[u8],
    ) -> Result<(), Refusal>
        ensures { result ≡ unless (first_met (asserting_tests self.now.state date account.now amount commodity.now)) tt }
    {
        self.check_no_draft()?;
        check_date(date)?;
        check_account_name(account)?;
        check_number(amount)?;
        check_commodity_name(commodity)?;
        self.check_forward(date, Rank::Asserting)?;
        let number = self.declared(commodity)?;
        let total = self
            .total_under(account, number)
            .ok_or(Refusal::AccountNotOpen)?;
        refuse_unless(!differs(total, amount), Refusal::BalanceDiffers)
    }

    // Holds an amount to what the accounts under the named one hold together.
    pub fn assert_balance(
        &mut self,
        source: u32,
        date: u32,
        account: &[u8],
        amount: i32,
        commodity: &[u8],
    ) -> Result<(), Fault>
        ensures { (outcome_of (λ _. Done) result, self.new) ≡ carried_out P.Policy.order self.old (asserting source date account.now amount commodity.now) }
    {
        reported(
            source,
            self.check_asserting(date, account, amount, commodity),
        )?;
        self.accept(date, Rank::Asserting);
        Ok(())
    }

    // The number of the account, if it may be closed.
    fn check_closing(&self, date: u32, account: &[u8]) -> Result<u16, Refusal>
        ensures { result ≡ unless (first_met (closing_tests self.now.state date account.now)) (number_or_0 (open_account self.now.state.names account.now)) }
    {
        self.check_no_draft()?;
        check_date(date)?;
        check_account_name(account)?;
        self.check_forward(date, Rank::Closing)?;
        let number = self.opened(account)?;
        refuse_unless(
            self.holdings.is_empty_account(number),
            Refusal::AccountNotEmpty,
        )?;
        Ok(number)
    }

    fn close_account(&mut self, date: u32, number: u16)
        ensures { self.new ≡ in_state self.old (with_names self.old.state (with_account_closed self.old.state.names number) date 3) }
    {
        self.chart.close(number);
        self.accept(date, Rank::Closing);
    }

    // Closes an account that is empty.
    pub fn close(&mut self, source: u32, date: u32, account: &[u8]) -> Result<(), Fault>
        ensures { (outcome_of (λ _. Done) result, self.new) ≡ carried_out P.Policy.order self.old (closing source date account.now) }
    {
        let number = reported(source, self.check_closing(date, account))?;
        self.close_account(date, number);
        Ok(())
    }
}
