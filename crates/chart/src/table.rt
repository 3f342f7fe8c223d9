// The commodities as declared and the accounts as opened, each counted from 1: found by name, added, closed.
// Clauses see a chart as the names of a ledger's state.
ghost use Rattle.std.specs.Prelude.{◌≡◌, ◌+◌, ◌-◌, ◌<◌, ◌≤◌, true, false, length, Some};
ghost use Rattle.values.specs.Names.{is_commodity_name, is_account_name};
ghost use Rattle.books.specs.Conditions.{commodities_full, accounts_full};
ghost use Rattle.books.specs.Lookups.{commodity_number, account_number, open_account, any_under, own_of};
ghost use Rattle.books.specs.Changes as books;
ghost use Rattle.books.specs.States.{no_names};
ghost use Rattle.chart.specs.Changes.{WithinLimits, with_commodity, with_account};

use booking::limits::{MOST_ACCOUNTS, MOST_COMMODITIES};
use books::account::Account;
use books::name::Name;
use bounded::list::Bounded;
use std::marker::Model;
use values::names::is_under;

#[derive(Drop)]
pub struct Chart {
    commodities: Bounded<Name, MOST_COMMODITIES>,
    accounts: Bounded<Account, MOST_ACCOUNTS>,
}

impl Model for Chart {
    ghost use Rattle.books.specs.States.{Names};
    ghost use Rattle.chart.specs.Changes.{WithinLimits};

    ghost Value = { Names };

    ghost view = { λ c. record { commodities = c.commodities; accounts = c.accounts } };

    ghost invariant = { λ c. WithinLimits (record { commodities = c.commodities; accounts = c.accounts }) };
}

// The numbers of the commodity and of the account at a place, or of the next one: both are counted from 1.
// Two functions, since a generic one would need a trait for the cast.
fn commodity_at(place: usize) -> u8
    requires { place ≤ 16 }
    ensures { result ≡ place + 1 }
{
    place as u8 + 1
}

fn account_at(place: usize) -> u16
    requires { place ≤ 64 }
    ensures { result ≡ place + 1 }
{
    place as u16 + 1
}

fn place_of(account: u16) -> usize
    ensures { result ≡ account - 1 }
{
    (account as usize).saturating_sub(1)
}

// What can be asked of a chart.
impl Chart {
    // The number of a declared commodity.
    pub fn commodity(&self, name: &[u8]) -> Option<u8>
        ensures number { result ≡ commodity_number self.now name.now }
        ensures within { WithinLimits self.now }
    {
        self.commodity_list()
            .iter()
            .position(|kept| kept.as_slice() == name)
            .map(commodity_at)
    }

    // The number of an account that was opened, closed or not.
    pub fn account(&self, name: &[u8]) -> Option<u16>
        ensures number { result ≡ account_number self.now name.now }
        ensures within { WithinLimits self.now }
    {
        self.account_list()
            .iter()
            .position(|account| account.name.as_slice() == name)
            .map(account_at)
    }

    // The number of an account that is open.
    pub fn open_account(&self, name: &[u8]) -> Option<u16>
        ensures number { result ≡ open_account self.now name.now }
        ensures within { WithinLimits self.now }
    {
        self.account_list()
            .iter()
            .position(|account| account.is_open && account.name.as_slice() == name)
            .map(account_at)
    }

    // Whether an account that lies under a name was ever opened.
    pub fn has_under(&self, name: &[u8]) -> bool
        ensures found { result ≡ any_under self.now name.now }
        ensures within { WithinLimits self.now }
    {
        self.account_list()
            .iter()
            .any(|account| is_under(account.name.as_slice(), name))
    }

    // The own commodity of the account of a number, if it has one.
    pub fn own(&self, account: u16) -> Option<u8>
        ensures own { result ≡ own_of self.now (Some account) }
        ensures within { WithinLimits self.now }
    {
        self.account_list().get(place_of(account))?.own
    }

    pub fn commodities(&self) -> usize
        ensures counted { result ≡ length self.now.commodities }
        ensures few { result ≤ 16 }
        ensures within { WithinLimits self.now }
    {
        self.commodity_list().len()
    }

    // The commodities in the order in which they were declared.
    pub fn commodity_list(&self) -> &[Name]
        ensures listed { result.now ≡ self.now.commodities }
        ensures few { length result.now ≤ 16 }
        ensures within { WithinLimits self.now }
    {
        self.commodities.as_slice()
    }

    // The accounts in the order in which they were opened.
    pub fn account_list(&self) -> &[Account]
        ensures listed { result.now ≡ self.now.accounts }
        ensures few { length result.now ≤ 64 }
        ensures within { WithinLimits self.now }
    {
        self.accounts.as_slice()
    }

    pub fn accounts(&self) -> usize
        ensures counted { result ≡ length self.now.accounts }
        ensures few { result ≤ 64 }
        ensures within { WithinLimits self.now }
    {
        self.account_list().len()
    }
}

// A new chart, and what changes one. Nothing is tested here: a call on the ledger has refused what is not allowed.
impl Chart {
    pub fn new() -> Chart
        ensures empty { result ≡ no_names }
        ensures within { WithinLimits result }
    {
        let name = Name::new(b"");
        Chart {
            commodities: Bounded::new(name),
            accounts: Bounded::new(Account {
                name,
                own: None,
                is_open: false,
            }),
        }
    }

    // One more commodity, unless there are 16; answers its number, or one that no commodity has.
    #[tactic(auto, using(crate::proofs::Whole::commodity_whole))]
    pub fn declare(&mut self, name: &[u8]) -> u8
        ensures number { result ≡ length self.old.commodities + 1 }
        ensures defined { self.new ≡ with_commodity name.now self.old }
        ensures allowed { is_commodity_name name.now ≡ true → commodities_full self.old ≡ false → self.new ≡ books.with_commodity self.old name.now }
        ensures within { WithinLimits self.old × WithinLimits self.new }
    {
        let number = commodity_at(self.commodities());
        let _ = self.commodities.push(Name::new(name));
        number
    }

    // One more account, unless there are 64; answers its number, or one that no account has.
    #[tactic(auto, using(crate::proofs::Whole::account_whole))]
    pub fn open(&mut self, name: &[u8], own: Option<u8>) -> u16
        ensures number { result ≡ length self.old.accounts + 1 }
        ensures defined { self.new ≡ with_account name.now own self.old }
        ensures allowed { is_account_name name.now ≡ true → accounts_full self.old ≡ false → self.new ≡ books.account_added self.old name.now own }
        ensures within { WithinLimits self.old × WithinLimits self.new }
    {
        let number = account_at(self.accounts());
        let _ = self.accounts.push(Account {
            name: Name::new(name),
            own,
            is_open: true,
        });
        number
    }

    // The account of a number is open no more.
    pub fn close(&mut self, account: u16)
        ensures closed { self.new ≡ books.with_account_closed self.old account }
        ensures within { WithinLimits self.old × WithinLimits self.new }
    {
        let place = place_of(account);
        if let Some(kept) = self.account_list().get(place) {
            let closed = Account {
                is_open: false,
                ..*kept
            };
            self.accounts.put(place, closed);
        }
    }
}
