// Reductions.
ghost use Rattle.std.specs.Prelude.{◌≡◌, ◌+◌, ◌≤◌, true, [], length, OnOk, OnErr};
ghost use Rattle.std.specs.List.{list_all};
ghost use Rattle.matching.specs.Matching.{matches};
ghost use Rattle.matching.specs.Drawing.{settled, draws_of};
ghost use Rattle.matching.specs.Drawn.{TooFew, Unsettled};
ghost use Rattle.stock.specs.Kept.{WellKept};
ghost use Rattle.stock.specs.Tables.{reduced, table_after_reduction};
ghost use Rattle.stock.specs.Places.{TakesFirst};
ghost use Rattle.stock.specs.Promises.{map_ok, DrawsEarliestFirst, draw_in_range, RefusedExactly, AcceptedWithOneMatch, KeptIfRefused};

use super::{LotTable, MOST_LOTS};
use bounded::list::Bounded;
use lots::lot::Lot;
use lots::policy::{Policy, Question};
use matching::search::{lots_matching, units_matching};
use matching::wanted::{Draw, Reduction};
use refusal::Refusal;

// What a reduction draws: from each open lot at most once.
pub type Draws = Bounded<Draw, MOST_LOTS>;

// An empty list of draws, to lend to reductions.
pub fn no_draws() -> Draws
    ensures { result ≡ [] }
{
    Bounded::new(Draw::default())
}

impl LotTable {
    // Draws units from the matching lots in the policy's order, each to its last unit before the next; or refuses and changes nothing.
    // The draws go to the list that is lent, whatever was in it.
    // Each lot that it draws from is emptied but the last, so that draws and open lots together grow by at most one.
    #[tactic(auto, using(matching::proofs::Earliest::unsettled_from, matching::proofs::Earliest::unsettled_to))]
    pub fn reduce<P: Policy>(
        &mut self,
        asked: &Reduction<P>,
        draws: &mut Draws,
    ) -> Result<(), Refusal>
        ensures defined { (map_ok (λ _. draws.new) result, self.new) ≡ reduced (P.Policy.order asked.now.policy.now) asked.now.wanted asked.now.units self.old }
        ensures draws_earliest_first { DrawsEarliestFirst (P.Policy.order asked.now.policy.now) asked.now.wanted asked.now.units self.old (map_ok (λ _. draws.new) result, self.new) }
        ensures draws_in_range { OnOk result (list_all draw_in_range draws.new ≡ true) }
        ensures grows_by_one { OnOk result (length draws.new + length self.new.lots ≤ length self.old.lots + 1) }
        ensures few { OnOk result (length draws.new ≤ 256) }
        ensures too_few_is_22 { RefusedExactly 22 (TooFew (matches asked.now.wanted) asked.now.units self.old.lots) result }
        ensures unsettled_is_23 { RefusedExactly 23 (Unsettled (P.Policy.order asked.now.policy.now) (matches asked.now.wanted) asked.now.units self.old.lots) result }
        ensures one_match_is_settled { AcceptedWithOneMatch asked.now.wanted asked.now.units self.old result }
        ensures kept { WellKept self.old × WellKept self.new }
        ensures refusal_changes_nothing { KeptIfRefused self.old (result, self.new) }
        ensures refusal_keeps_draws { OnErr result (draws.new ≡ draws.old) }
    {
        if units_matching(self.lots(), &asked.wanted) < u128::from(asked.units) {
            return Err(Refusal::TooFewUnits);
        }
        if !self.is_settled(asked) {
            return Err(Refusal::NotSettledByPolicy);
        }
        self.draw(asked, draws);
        Ok(())
    }

    // Whether the policy settles, asked with the earliest of the matching lots.
    #[tactic(auto, using(matching::proofs::Earliest::settled_none, matching::proofs::Earliest::settled_at))]
    fn is_settled<P: Policy>(&self, asked: &Reduction<P>) -> bool
        ensures { result ≡ settled (P.Policy.order asked.now.policy.now) (matches asked.now.wanted) asked.now.units self.now.lots }
    {
        let rows = self.lots();
        match asked.earliest(rows) {
            None => true,
            Some(place) => asked.policy.settles(&Question {
                units: asked.units,
                lots: lots_matching(rows, &asked.wanted),
                earliest: rows[place],
            }),
        }
    }

    // One lot after another gives, until nothing is left to ask or no wanted lot is left.
    fn draw<P: Policy>(&mut self, asked: &Reduction<P>, draws: &mut Draws)
        ensures drawn { draws.new ≡ draws_of (P.Policy.order asked.now.policy.now) asked.now.wanted asked.now.units self.old.lots }
        ensures after { self.new ≡ table_after_reduction (P.Policy.order asked.now.policy.now) asked.now.wanted asked.now.units self.old }
        ensures in_range { list_all draw_in_range draws.new ≡ true }
        ensures grows_by_one { length draws.new + length self.new.lots ≤ length self.old.lots + 1 }
        ensures few { length draws.new ≤ 256 }
        ensures kept { WellKept self.new }
    {
        draws.clear();
        let mut left = asked.units;
        // no chain: its end is what is drawn, and not a list's
        while let Some(draw) = self.take(asked, left) {
            left -= draw.units;
            draws.push(draw).unwrap();
        }
    }

    // The first of the wanted lots gives what is left to ask, or all that it has; emptied, it is gone.
    // The order is asked with all the units, also where some are drawn already: a lot is touched at most once,
    // so those that are still there have the units that they had before. `kept` tells the loop what the table keeps.
    fn take<P: Policy>(&mut self, asked: &Reduction<P>, left: u32) -> Option<Draw>
        ensures taken { TakesFirst (matches asked.now.wanted) ((P.Policy.order asked.now.policy.now).before asked.now.units) left self.old (result, self.new) }
        ensures kept { WellKept self.old × WellKept self.new }
    {
        let rows = self.lots();
        if left == 0 {
            return None;
        }
        let place = asked.earliest(rows)?;
        let lot = Lot::new(rows[place]).unwrap();
        let row = lot.row();
        let units = match lot.shrink(left) {
            Some(rest) => {
                self.rows.put(place, rest.row());
                left
            }
            None => {
                self.rows.remove(place);
                row.units
            }
        };
        Some(Draw { lot: row, units })
    }
}
