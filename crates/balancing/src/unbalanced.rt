// Which commodities are out of balance.
ghost use Rattle.std.specs.Prelude.{◌≡◌, ◌≤◌, length, pos, slice_index_or};
ghost use Rattle.booking.specs.Weighing.{unbalanced_in, weight_sum};
ghost use Rattle.balancing.specs.Summary.{summary, and_commodity};

use crate::sums::{Sums, weight_sums};
use booking::entry::Entry;
use booking::limits::MOST_COMMODITIES;

// None, one with what its weights sum to, or several.
#[derive(Clone, Copy, PartialEq, Eq, Debug)]
pub enum Unbalanced {
    Nothing,
    Only { commodity: u8, sum: i128 },
    Several,
}

impl Unbalanced {
    // One commodity more: it counts where its sum is not 0.
    fn and_commodity(self, commodity: u8, sum: i128) -> Unbalanced
        ensures { result ≡ and_commodity commodity sum self }
    {
        if sum == 0 {
            return self;
        }
        match self {
            Unbalanced::Nothing => Unbalanced::Only { commodity, sum },
            _ => Unbalanced::Several,
        }
    }
}

fn sum_in(sums: &Sums, commodity: u8) -> i128
    ensures { result ≡ slice_index_or sums.now commodity (pos 0) }
{
    sums.get(usize::from(commodity)).copied().unwrap_or(0)
}

pub fn unbalanced_in(entries: &[Entry]) -> Unbalanced
    requires { length entries.now ≤ 288 }
    ensures { result ≡ summary (weight_sum entries.now) (unbalanced_in entries.now) }
{
    let sums = weight_sums(entries);
    (1..=MOST_COMMODITIES as u8).fold(Unbalanced::Nothing, |found, commodity| {
        found.and_commodity(commodity, sum_in(&sums, commodity))
    })
}
