// The plain balances: 16 commodities for each of 64 accounts, none larger than the largest that a settling leaves.
// Clauses see them as the list of the places.
ghost use Rattle.std.specs.Prelude.{◌≡◌, ◌≤◌, true, length, unsigned_abs};
ghost use Rattle.std.specs.List.{list_all};
ghost use Rattle.booking.specs.Ranges.{entry_in_range};
ghost use Rattle.booking.specs.Balances.{no_balances, balance_in, balances_after, all_within, largest_balance};
ghost use Rattle.balances.specs.Stages.{settled_balances};

use self::adding::{add_entries, place};
use self::staying::all_stay;
use booking::entries::Entries;
use booking::limits::{MOST_ACCOUNTS, MOST_COMMODITIES};
use refusal::Refusal;
use std::marker::Model;

mod adding;
mod staying;

pub const PLACES: usize = MOST_ACCOUNTS * MOST_COMMODITIES;

// One array: a balance has its place for all numbers, so that a commodity past the last is one of the next account. An array for
// each account would answer 0 there, which the definition does not.
#[derive(Drop)]
pub struct Balances {
    places: [i64; PLACES],
}

impl Model for Balances {
    ghost use Rattle.std.specs.Prelude.{◌≡◌, true, List, ℤ};
    ghost use Rattle.booking.specs.Balances.{all_within};

    ghost Value = { List ℤ };

    ghost view = { λ b. b.places };

    ghost invariant = { λ b. all_within b.places ≡ true };
}

impl Balances {
    // Every balance is 0.
    pub fn new() -> Balances
        ensures empty { result ≡ no_balances }
        ensures kept { all_within result ≡ true }
    {
        Balances {
            places: [0; PLACES],
        }
    }

    // The balances of all accounts, one account after another.
    pub fn as_slice(&self) -> &[i64]
        ensures listed { result.now ≡ self.now }
        ensures kept { all_within self.now ≡ true }
    {
        &self.places[..]
    }

    // The plain balance of an account in a commodity; one that has no place has none.
    pub fn balance(&self, account: u16, commodity: u8) -> i64
        ensures value { result ≡ balance_in self.now account commodity }
        ensures small { unsigned_abs result ≤ largest_balance }
        ensures kept { all_within self.now ≡ true }
    {
        self.places
            .get(place(account, commodity))
            .copied()
            .unwrap_or(0)
    }

    // 27, where a balance would be too large after the entries of a draft.
    pub fn check(&self, entries: &Entries) -> Result<(), Refusal>
        ensures checked { result ≡ settled_balances self.now entries.now }
        ensures kept { all_within self.now ≡ true }
        ensures few { length entries.now ≤ 288 }
        ensures ranges { list_all entry_in_range entries.now ≡ true }
    {
        if !all_stay(&self.places, entries) {
            return Err(Refusal::BalanceTooLarge);
        }
        Ok(())
    }

    // The balances become those after the entries of a draft.
    #[tactic(auto, using(crate::proofs::Bounds::near_none))]
    pub fn add(&mut self, entries: &Entries)
        requires { all_within (balances_after self.old entries.now) ≡ true }
        ensures added { self.new ≡ balances_after self.old entries.now }
        ensures kept { (all_within self.old ≡ true) × (all_within self.new ≡ true) }
        ensures few { length entries.now ≤ 288 }
        ensures ranges { list_all entry_in_range entries.now ≡ true }
    {
        add_entries(&mut self.places, entries);
    }
}
