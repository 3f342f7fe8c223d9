// Whether balances stay within their bound once entries are added, found without adding them.
ghost use Rattle.std.specs.Prelude.{◌≡◌, ◌*◌, ◌≤◌, true, length, unsigned_abs};
ghost use Rattle.std.specs.List.{list_all};
ghost use Rattle.booking.specs.Ranges.{entry_in_range};
ghost use Rattle.booking.specs.Balances.{balances_after, all_within};
ghost use Rattle.balances.specs.Sums.{amount_at, sum_at, place_stays, kind_stays};

use super::PLACES;
use super::adding::place;
use booking::entries::Entries;
use booking::entry::{Entry, EntryKind};

// The largest plain balance in size, in hundredths.
const LARGEST: u64 = 6_100_000_000_000;

// What an entry adds to the balance at a place.
fn amount_at(at: usize, kind: &EntryKind) -> i64
    ensures value { result ≡ amount_at at kind.now }
    ensures small { unsigned_abs result ≤ 2147483648 }
{
    match *kind {
        EntryKind::PlainAmount {
            account,
            amount,
            commodity,
        } if place(account, commodity) == at => i64::from(amount),
        EntryKind::Filled {
            account,
            amount,
            commodity,
        } if place(account, commodity) == at => i64::from(amount),
        _ => 0,
    }
}

// What entries add to it.
fn sum_at(at: usize, entries: &[Entry]) -> i64
    requires { length entries.now ≤ 288 }
    ensures value { result ≡ sum_at at entries.now }
    ensures small { unsigned_abs result ≤ 2147483648 * 288 }
{
    let mut sum = 0;
    // no `sum`: it would owe that each sum on the way fits, which hangs on how many entries there are
    for entry in entries {
        sum += amount_at(at, &entry.kind);
    }
    sum
}

fn place_stays(places: &[i64; PLACES], entries: &Entries, at: usize) -> bool
    requires { all_within places.now ≡ true }
    ensures { result ≡ place_stays places.now entries.now at }
{
    at >= PLACES || (places[at] + sum_at(at, entries.as_slice())).unsigned_abs() <= LARGEST
}

fn kind_stays(places: &[i64; PLACES], entries: &Entries, kind: &EntryKind) -> bool
    requires { all_within places.now ≡ true }
    ensures { result ≡ kind_stays places.now entries.now kind.now }
{
    match *kind {
        EntryKind::PlainAmount {
            account,
            commodity,
            ..
        } => place_stays(places, entries, place(account, commodity)),
        EntryKind::Filled {
            account,
            commodity,
            ..
        } => place_stays(places, entries, place(account, commodity)),
        _ => true,
    }
}

// Whether all balances stay within their bound. Only those that an entry adds to are looked at: the others are within it already.
pub(super) fn all_stay(places: &[i64; PLACES], entries: &Entries) -> bool
    requires { all_within places.now ≡ true }
    ensures stay { result ≡ all_within (balances_after places.now entries.now) }
    ensures few { length entries.now ≤ 288 }
    ensures ranges { list_all entry_in_range entries.now ≡ true }
{
    entries
        .as_slice()
        .iter()
        .all(|entry| kind_stays(places, entries, &entry.kind))
}
