// What all dated calls share: the first and the last of their common tests, and what they leave. Each call says all its tests, in
// the order of the list of refusals, for a reader to compare; one function, with a closure for those between, would hide that order.
// A call's source and date are no struct: a caller hands over each by its own name, beside the call's other figures. Nor are date
// and rank: the rank of a call is a constant, which a struct would only hide in what makes it.
ghost use Rattle.std.specs.Prelude.{◌≡◌};
ghost use Rattle.refusal.specs.declared.Refusal.TheVariants.{DraftUnderWay, GoesBack};
ghost use Rattle.books.specs.Checks.{Checks};
ghost use Rattle.books.specs.Conditions.{draft_under_way, goes_back};
ghost use Rattle.books.specs.Changes.{with_names};
ghost use Rattle.ledger.specs.Ranks.{rank_number};
ghost use Rattle.ledger.specs.Kept.{in_state};

use crate::Ledger;
use crate::rank::Rank;
use drafting::checks::refuse_unless;
use lots::policy::Policy;
use refusal::Refusal;

impl<P: Policy> Ledger<P> {
    // 1
    pub(crate) fn check_no_draft(&self) -> Result<(), Refusal>
        ensures { Checks DraftUnderWay (draft_under_way self.now.state) result }
    {
        refuse_unless(self.draft.is_none(), Refusal::DraftUnderWay)
    }

    // 12
    pub(crate) fn check_forward(&self, date: u32, rank: Rank) -> Result<(), Refusal>
        ensures { Checks GoesBack (goes_back self.now.state date (rank_number rank)) result }
    {
        refuse_unless(
            (self.last_date, self.last_rank) <= (date, rank),
            Refusal::GoesBack,
        )
    }

    // Date and rank of an accepted call.
    pub(crate) fn accept(&mut self, date: u32, rank: Rank)
        ensures { self.new ≡ in_state self.old (with_names self.old.state self.old.state.names date (rank_number rank)) }
    {
        self.last_date = date;
        self.last_rank = rank;
    }
}
