// What several calls look up: the draft of a slip, a declared commodity, an account that is open.
ghost use Rattle.std.specs.Prelude.{◌≡◌, ◌∷◌, [], Some};
ghost use Rattle.stock.specs.Promises.{map_ok};
ghost use Rattle.refusal.specs.declared.Refusal.TheVariants.{NoSuchDraft, CommodityNotDeclared, AccountNotOpen};
ghost use Rattle.refusal.specs.Refusing.{first_met, unless};
ghost use Rattle.books.specs.Checks.{Checks, Finds};
ghost use Rattle.books.specs.Conditions.{no_such_draft, not_declared, not_open};
ghost use Rattle.books.specs.Lookups.{commodity_number, open_account, number_or_0};

use crate::Ledger;
use crate::slip::Slip;
use booking::draft::Draft;
use lots::policy::Policy;
use refusal::Refusal;

impl<P: Policy> Ledger<P> {
    // 2: the draft of a slip.
    pub(crate) fn draft_of(&self, slip: &Slip) -> Result<&Draft, Refusal>
        ensures { map_ok (λ d. Some d.now) result ≡ unless (first_met ((NoSuchDraft, no_such_draft self.now.state slip.now.number) ∷ [])) self.now.state.draft }
    {
        self.draft
            .as_ref()
            .filter(|_| slip.number == self.transactions + 1)
            .ok_or(Refusal::NoSuchDraft)
    }

    pub(crate) fn check_slip(&self, slip: &Slip) -> Result<(), Refusal>
        ensures { Checks NoSuchDraft (no_such_draft self.now.state slip.now.number) result }
    {
        self.draft_of(slip)?;
        Ok(())
    }

    // 14: the number of a commodity.
    pub(crate) fn declared(&self, name: &[u8]) -> Result<u8, Refusal>
        ensures { Finds CommodityNotDeclared (not_declared self.now.state.names name.now) (number_or_0 (commodity_number self.now.state.names name.now)) result }
    {
        self.chart
            .commodity(name)
            .ok_or(Refusal::CommodityNotDeclared)
    }

    // 16: the number of an account that is open.
    pub(crate) fn opened(&self, name: &[u8]) -> Result<u16, Refusal>
        ensures { Finds AccountNotOpen (not_open self.now.state.names name.now) (number_or_0 (open_account self.now.state.names name.now)) result }
    {
        self.chart.open_account(name).ok_or(Refusal::AccountNotOpen)
    }
}
