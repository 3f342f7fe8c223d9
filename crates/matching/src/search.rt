// Looking through a slice of lots.
ghost use Rattle.std.specs.Prelude.{◌≡◌, length};
ghost use Rattle.matching.specs.Matching.{matches, units_matching, lots_matching};
ghost use Rattle.matching.specs.Places.{Found};

use crate::wanted::{Reduction, Wanted};
use lots::policy::Policy;
use lots::rows::LotRow;

// The units of the lots that match. The sum is wide enough for any slice.
pub fn units_matching(rows: &[LotRow], wanted: &Wanted) -> u128
    ensures { result ≡ units_matching (matches wanted.now) rows.now }
{
    rows.iter()
        .filter(|row| wanted.matches(row))
        .map(|row| u128::from(row.units))
        .sum()
}

// How many lots match.
pub fn lots_matching(rows: &[LotRow], wanted: &Wanted) -> usize
    ensures { result ≡ lots_matching (matches wanted.now) rows.now }
{
    rows.iter().filter(|row| wanted.matches(row)).count()
}

impl<P: Policy> Reduction<'_, P> {
    // The place of the matching lot that the policy puts first.
    pub fn earliest(&self, rows: &[LotRow]) -> Option<usize>
        ensures { Found (matches self.now.wanted) ((P.Policy.order self.now.policy.now).before self.now.units) rows.now (length rows.now) result }
    {
        rows.iter()
            .enumerate()
            .filter(|(_, row)| self.wanted.matches(row))
            .reduce(|first, next| if self.policy.before(self.units, next.1, first.1) {
                next
            } else {
                first
            })
            .map(|(place, _)| place)
    }
}
