// Declaring commodities and opening accounts.
ghost use Rattle.std.specs.Prelude.{◌≡◌, ◌+◌, true, false, length, OnOk};
ghost use Rattle.std.specs.Option.{option_map};
ghost use Rattle.refusal.specs.declared.Refusal.TheVariants.{BadCommodityName, CommodityNotDeclared};
ghost use Rattle.refusal.specs.Refusing.{first_met, unless};
ghost use Rattle.books.specs.Checks.{Checks, Finds};
ghost use Rattle.books.specs.Lookups.{commodity_number, number_or_0};
ghost use Rattle.values.specs.Names.{is_commodity_name, is_account_name};
ghost use Rattle.books.specs.Conditions.{bad_commodity_name, not_declared, commodities_full, accounts_full};
ghost use Rattle.books.specs.Changes.{with_names, with_commodity, account_added};
ghost use Rattle.books.specs.Calls.{declaring, opening};
ghost use Rattle.ledger.specs.Answers.{carried_out};
ghost use Rattle.books.specs.declared.outcome.Outcome.TheVariants.{Declared, Opened};
ghost use Rattle.books.specs.Refusals.{given_and, declaring_tests, opening_tests};
ghost use Rattle.ledger.specs.Answers.{outcome_of};
ghost use Rattle.ledger.specs.Kept.{in_state};

use crate::Ledger;
use crate::fault::reported;
use crate::rank::Rank;
use booking::limits::{MOST_ACCOUNTS, MOST_COMMODITIES};
use drafting::checks::{check_account_name, check_commodity_name, check_date, refuse_unless};
use lots::policy::Policy;
use refusal::{Fault, Refusal};

// A name that need not be given.
fn check_own_name(own: Option<&[u8]>) -> Result<(), Refusal>
    ensures { Checks BadCommodityName (given_and bad_commodity_name (option_map (λ c. c.now) own.entry)) result }
{
    own.map_or(Ok(()), check_commodity_name)
}

impl<P: Policy> Ledger<P> {
    fn check_declaring(&self, date: u32, name: &[u8]) -> Result<(), Refusal>
        ensures checked { result ≡ unless (first_met (declaring_tests self.now.state date name.now)) tt }
        ensures allowed { OnOk result ((is_commodity_name name.now ≡ true) × (commodities_full self.now.state.names ≡ false)) }
    {
        self.check_no_draft()?;
        check_date(date)?;
        check_commodity_name(name)?;
        self.check_forward(date, Rank::Naming)?;
        refuse_unless(
            self.chart.commodity(name).is_none(),
            Refusal::CommodityDeclaredAlready,
        )?;
        refuse_unless(
            self.chart.commodities() < MOST_COMMODITIES,
            Refusal::BooksFull,
        )
    }

    // One commodity more, where that is allowed.
    fn add_commodity(&mut self, date: u32, name: &[u8]) -> u8
        requires name { is_commodity_name name.now ≡ true }
        requires room { commodities_full self.old.state.names ≡ false }
        ensures number { result ≡ length self.old.state.names.commodities + 1 }
        ensures named { self.new ≡ in_state self.old (with_names self.old.state (with_commodity self.old.state.names name.now) date 0) }
    {
        let number = self.chart.declare(name);
        self.accept(date, Rank::Naming);
        number
    }

    // Adds a commodity and answers its number.
    pub fn declare(&mut self, source: u32, date: u32, name: &[u8]) -> Result<u8, Fault>
        ensures { (outcome_of Declared result, self.new) ≡ carried_out P.Policy.order self.old (declaring source date name.now) }
    {
        reported(source, self.check_declaring(date, name))?;
        Ok(self.add_commodity(date, name))
    }

    // The number of the own commodity that is named, if one is.
    fn own_commodity(&self, own: Option<&[u8]>) -> Result<Option<u8>, Refusal>
        ensures { Finds CommodityNotDeclared (given_and (not_declared self.now.state.names) (option_map (λ c. c.now) own.entry)) (option_map (λ c. number_or_0 (commodity_number self.now.state.names c.now)) own.entry) result }
    {
        // no `map` and `transpose`: tried, and the proof did not close
        let Some(name) = own else {
            return Ok(None);
        };
        Ok(Some(self.declared(name)?))
    }

    fn check_opening(
        &self,
        date: u32,
        name: &[u8],
        own: Option<&[u8]>,
    ) -> Result<Option<u8>, Refusal>
        ensures checked { result ≡ unless (first_met (opening_tests self.now.state date name.now (option_map (λ c. c.now) own.entry))) (option_map (λ c. number_or_0 (commodity_number self.now.state.names c.now)) own.entry) }
        ensures allowed { OnOk result ((is_account_name name.now ≡ true) × (accounts_full self.now.state.names ≡ false)) }
    {
        self.check_no_draft()?;
        check_date(date)?;
        check_account_name(name)?;
        check_own_name(own)?;
        self.check_forward(date, Rank::Naming)?;
        let own = self.own_commodity(own)?;
        refuse_unless(
            self.chart.account(name).is_none(),
            Refusal::AccountOpenedBefore,
        )?;
        refuse_unless(self.chart.accounts() < MOST_ACCOUNTS, Refusal::BooksFull)?;
        Ok(own)
    }

    // One account more, where that is allowed.
    fn add_account(&mut self, date: u32, name: &[u8], own: Option<u8>) -> u16
        requires name { is_account_name name.now ≡ true }
        requires room { accounts_full self.old.state.names ≡ false }
        ensures number { result ≡ length self.old.state.names.accounts + 1 }
        ensures named { self.new ≡ in_state self.old (with_names self.old.state (account_added self.old.state.names name.now own) date 0) }
    {
        let number = self.chart.open(name, own);
        self.accept(date, Rank::Naming);
        number
    }

    // Adds an account, with one own commodity or none, and answers its number.
    pub fn open(
        &mut self,
        source: u32,
        date: u32,
        name: &[u8],
        own: Option<&[u8]>,
    ) -> Result<u16, Fault>
        ensures { (outcome_of Opened result, self.new) ≡ carried_out P.Policy.order self.old (opening source date name.now (option_map (λ c. c.now) own.entry)) }
    {
        let own = reported(source, self.check_opening(date, name, own))?;
        Ok(self.add_account(date, name, own))
    }
}
