// Adding amounts to balances.
ghost use Rattle.std.specs.Prelude.{◌≡◌, ℕ, ◌+◌, ◌-◌, ◌*◌, ◌≤◌, true, length};
ghost use Rattle.std.specs.List.{list_all};
ghost use Rattle.booking.specs.Ranges.{entry_in_range};
ghost use Rattle.booking.specs.Balances.{balance_place, add_amount, add_kind, balances_after};
ghost use Rattle.balances.specs.Bounds.{Near};

use super::PLACES;
use booking::entries::Entries;
use booking::entry::EntryKind;
use booking::limits::MOST_COMMODITIES;

// Where the balance of an account in a commodity stands; both are counted from 1. They are no struct, here and in what stands on it:
// callers have two figures, definitions take two, and entries and keys hold them among others, so that each call would only make
// a pair and take it apart.
pub(super) fn place(account: u16, commodity: u8) -> usize
    ensures { result ≡ balance_place account commodity }
{
    MOST_COMMODITIES * (account as usize).saturating_sub(1) + (commodity as usize).saturating_sub(1)
}

// An amount more for an account in a commodity; one that has no place gets none.
fn add_amount(places: &mut [i64; PLACES], account: u16, commodity: u8, amount: i32)
    requires { Near places.old 288 }
    ensures added { places.new ≡ add_amount places.old account commodity amount }
    ensures near { (n : ℕ) → Near places.old n → Near places.new (n + 1) }
{
    let at = place(account, commodity);
    if at < PLACES {
        places[at] += i64::from(amount);
    }
}

// Plain amounts and filled blanks go to the plain balances.
fn add_kind(places: &mut [i64; PLACES], kind: &EntryKind)
    requires { Near places.old 288 }
    ensures added { places.new ≡ add_kind places.old kind.now }
    ensures near { (n : ℕ) → Near places.old n → Near places.new (n + 1) }
{
    match *kind {
        EntryKind::PlainAmount {
            account,
            amount,
            commodity,
        } => add_amount(places, account, commodity, amount),
        // no part of the arm above: of a pattern that binds an i32 in two ways no proof is made
        EntryKind::Filled {
            account,
            amount,
            commodity,
        } => add_amount(places, account, commodity, amount),
        _ => {}
    }
}

// The balances after entries, one after another.
#[tactic(auto, using(balancing::proofs::Within::all_within_more))]
pub(super) fn add_entries(places: &mut [i64; PLACES], entries: &Entries)
    requires { Near places.old 0 }
    ensures added { places.new ≡ balances_after places.old entries.now }
    ensures few { length entries.now ≤ 288 }
    ensures ranges { list_all entry_in_range entries.now ≡ true }
{
    for entry in entries.as_slice() {
        add_kind(places, &entry.kind);
    }
}
