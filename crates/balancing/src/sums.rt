// What entries weigh in each commodity. An i128 holds every sum here exactly, whatever units and costs are.
ghost use Rattle.std.specs.Prelude.{◌≡◌, ℕ, ◌+◌, ◌≤◌, length, pos, ◌+ℤ◌, slice_index_or, unsigned_abs};
ghost use Rattle.booking.specs.Limits.{most_commodities};
ghost use Rattle.booking.specs.Weighing.{kind_weight, weight_sum};
ghost use Rattle.weights.specs.Weights.{weight_in};
ghost use Rattle.weights.specs.Sizes.{largest_weight};
ghost use Rattle.balancing.specs.Bounds.{Near};

use booking::entry::{Entry, EntryKind};
use booking::limits::MOST_COMMODITIES;
use weights::{Weight, draw_weight, plain_weight, weight_of_key};

const SUMS: usize = MOST_COMMODITIES + 1;

// Each at the number of its commodity. No commodity has the number 0.
pub(crate) type Sums = [i128; SUMS];

// What an entry weighs; a blank nothing, until it is filled.
fn weight_of(kind: &EntryKind) -> Weight
    ensures weighed { (c : ℕ) → weight_in c result ≡ kind_weight c kind.now }
    ensures small { unsigned_abs result.amount ≤ largest_weight }
{
    match *kind {
        EntryKind::PlainAmount {
            amount,
            commodity,
            ..
        } => plain_weight(amount, commodity),
        EntryKind::Unfilled { .. } => Weight {
            commodity: 0,
            amount: 0,
        },
        // no part of the first arm: of a pattern that binds an i32 in two ways no proof is made
        EntryKind::Filled {
            amount,
            commodity,
            ..
        } => plain_weight(amount, commodity),
        EntryKind::Bought { key, units, .. } => weight_of_key(&key, units),
        EntryKind::Drew(draw) => draw_weight(&draw),
    }
}

// A weight in a commodity that has no place counts for nothing.
fn add_weight(sums: &mut Sums, weight: &Weight)
    requires near { Near sums.old 288 }
    requires small { unsigned_abs weight.now.amount ≤ largest_weight }
    ensures added { (c : ℕ) → c ≤ most_commodities → slice_index_or sums.new c (pos 0) ≡ slice_index_or sums.old c (pos 0) +ℤ weight_in c weight.now }
    ensures near { (n : ℕ) → Near sums.old n → Near sums.new (n + 1) }
{
    let at = usize::from(weight.commodity);
    if at < SUMS {
        sums[at] += weight.amount;
    }
}

// What entries weigh together.
#[tactic(auto, using(crate::proofs::Within::all_within_more))]
pub(crate) fn weight_sums(entries: &[Entry]) -> Sums
    requires { length entries.now ≤ 288 }
    ensures { (c : ℕ) → c ≤ most_commodities → slice_index_or result c (pos 0) ≡ weight_sum entries.now c }
{
    let mut sums = [0; SUMS];
    for entry in entries {
        add_weight(&mut sums, &weight_of(&entry.kind));
    }
    sums
}
