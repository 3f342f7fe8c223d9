// Whether a draft balances: 25, the blank, and 26.
ghost use Rattle.std.specs.Prelude.{◌≡◌, ◌≤◌, true, length, OnOk, OnErr};
ghost use Rattle.std.specs.List.{list_all};
ghost use Rattle.stock.specs.Promises.{map_ok};
ghost use Rattle.booking.specs.Ranges.{entry_in_range};
ghost use Rattle.booking.specs.Weighing.{has_blank};
ghost use Rattle.balancing.specs.Summary.{amount_for, with_blank, balanced, entries_after};

use crate::unbalanced::{Unbalanced, unbalanced_in};
use booking::entries::Entries;
use booking::entry::Entry;
use booking::posting::Posting;
use refusal::Refusal;
use values::amount::Amount;

// A sum of weights divided by -100, if that is whole and an amount.
fn amount_for(sum: i128) -> Option<i32>
    ensures { result ≡ amount_for sum }
{
    if sum % 100 != 0 {
        return None;
    }
    let amount = Amount::new(i32::try_from(sum / -100).ok()?)?;
    Some(amount.hundredths())
}

fn has_blank(entries: &[Entry]) -> bool
    ensures { result ≡ has_blank entries.now }
{
    entries.iter().any(|entry| entry.kind.is_unfilled())
}

// The blank takes what the one commodity that is out of balance lacks.
fn fill(entries: &mut Entries, own: Option<u8>, unbalanced: Unbalanced) -> Result<(), Refusal>
    ensures defined { map_ok (λ _. entries.new) result ≡ with_blank own entries.old unbalanced }
    ensures refused { OnErr result (entries.new ≡ entries.old) }
    ensures few { OnOk result (length entries.new ≤ 288) }
    ensures ranges { OnOk result (list_all entry_in_range entries.new ≡ true) }
{
    let Unbalanced::Only { commodity, sum } = unbalanced else {
        return Err(Refusal::BlankCannotBeFilled);
    };
    match amount_for(sum) {
        Some(amount) if own.is_none_or(|own| own == commodity) => {
            entries.fill_blank(amount, commodity);
            Ok(())
        }
        _ => Err(Refusal::BlankCannotBeFilled),
    }
}

// Fills the blank of a booked draft, or finds that it has none and balances; refused, the entries stay as they are.
// `own` is the own commodity of the blank's account.
pub fn balance(postings: &[Posting], entries: &mut Entries, own: Option<u8>) -> Result<(), Refusal>
    ensures defined { map_ok (λ _. entries.new) result ≡ balanced postings.now own entries.old }
    ensures entries { entries.new ≡ entries_after postings.now own entries.old }
    ensures few { (length entries.old ≤ 288) × (length entries.new ≤ 288) }
    ensures ranges { (list_all entry_in_range entries.old ≡ true) × (list_all entry_in_range entries.new ≡ true) }
{
    let listed = entries.as_slice();
    if postings.is_empty() {
        return Err(Refusal::NotBalanced);
    }
    let unbalanced = unbalanced_in(listed);
    if has_blank(listed) {
        return fill(entries, own, unbalanced);
    }
    match unbalanced {
        Unbalanced::Nothing => Ok(()),
        _ => Err(Refusal::NotBalanced),
    }
}
