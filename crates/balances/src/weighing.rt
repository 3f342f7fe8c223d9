// A booked draft is weighed: 25, 26 and 27, in the order of the list of refusals.
ghost use Rattle.std.specs.Prelude.{◌≡◌, ◌≤◌, true, length, OnOk};
ghost use Rattle.std.specs.List.{list_all};
ghost use Rattle.stock.specs.Promises.{map_ok};
ghost use Rattle.booking.specs.Ranges.{entry_in_range};
ghost use Rattle.booking.specs.Balances.{all_within, balances_after};
ghost use Rattle.balancing.specs.Summary.{entries_after};
ghost use Rattle.balances.specs.Stages.{weighed};

use crate::table::Balances;
use balancing::balance::balance;
use booking::entries::Entries;
use booking::posting::Posting;
use refusal::Refusal;

// Fills the blank among the entries and finds that the balances stay within their bound after them, or answers the first refusal
// that is met.
// `own` is the own commodity of the blank's account. Refused 25 or 26, the entries stay as they are; refused 27, their blank is filled.
pub fn weigh(
    postings: &[Posting],
    entries: &mut Entries,
    own: Option<u8>,
    balances: &Balances,
) -> Result<(), Refusal>
    ensures defined { map_ok (λ _. entries.new) result ≡ weighed postings.now own balances.now entries.old }
    ensures entries { entries.new ≡ entries_after postings.now own entries.old }
    ensures kept { all_within balances.now ≡ true }
    ensures few { (length entries.old ≤ 288) × (length entries.new ≤ 288) }
    ensures ranges { (list_all entry_in_range entries.old ≡ true) × (list_all entry_in_range entries.new ≡ true) }
    ensures within { OnOk result (all_within (balances_after balances.now entries.new) ≡ true) }
{
    // what balances keep is told also where the draft does not balance
    let _ = balances.as_slice();
    balance(postings, entries, own)?;
    balances.check(entries)
}
