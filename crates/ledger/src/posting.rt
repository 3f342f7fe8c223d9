// Posting to the draft of a slip.
ghost use Rattle.std.specs.Prelude.{◌≡◌, ◌≤◌, ◌∷◌, [], not, true, is_some, Some, None, IfOk, IfSome, OnOk};
ghost use Rattle.std.specs.Option.{option_map, option_and_then};
ghost use Rattle.refusal.specs.declared.Refusal.TheVariants.{NotTheOwnCommodity, TooManyPostings, SecondBlank, BracesWithoutUse};
ghost use Rattle.refusal.specs.Refusing.{first_met, unless};
ghost use Rattle.values.specs.Amounts.{is_amount};
ghost use Rattle.lots.specs.Rows.{most};
ghost use Rattle.booking.specs.Weighing.{own_agrees};
ghost use Rattle.booking.specs.Ranges.{posting_kind_in_range, posting_in_range};
ghost use Rattle.books.specs.Checks.{Checks};
ghost use Rattle.books.specs.Conditions.{too_many_postings, is_blank, holds_a_blank, braces_without_use};
ghost use Rattle.books.specs.Given.{given_cost, given_braces, given_amount};
ghost use Rattle.books.specs.Lookups.{own_of};
ghost use Rattle.books.specs.Changes.{cost_of, posting_to, posting_of, with_posting, with_draft};
ghost use Rattle.books.specs.Refusals.{if_given, cost_not_declared, drafted, blank_tests, account_tests, commodity_tests, amount_tests, posting_tests};
ghost use Rattle.books.specs.Calls.{posting};
ghost use Rattle.books.specs.declared.outcome.Outcome.TheVariants.{Done};
ghost use Rattle.ledger.specs.Answers.{carried_out, outcome_of};
ghost use Rattle.ledger.specs.Kept.{in_state};
ghost use Rattle.ledger.specs.Posting.{kind_given, HasPlace};

use crate::Ledger;
use crate::fault::reported;
use crate::slip::Slip;
use booking::posting::{Posting, PostingKind};
use booking::postings::MOST_POSTINGS;
use books::call::{GivenAmount, GivenBraces, GivenCost};
use drafting::checks::{check_account_name, refuse_unless};
use drafting::given::check_amount;
use lots::policy::Policy;
use lots::rows::Cost;
use refusal::{Fault, Refusal};

// What is posted: without braces a plain amount; with them units below 0 are a reduction, and units above 0 with a cost a purchase.
// Other braces have no use, which is 20.
fn kind_of(
    number: i32,
    commodity: u8,
    braces: Option<GivenBraces<'_>>,
    cost: Option<Cost>,
) -> Result<PostingKind, Refusal>
    requires { is_some cost ≡ is_some (option_and_then (λ b. b.cost) braces) }
    ensures kind { result ≡ unless (first_met (if_given (λ b. (BracesWithoutUse, braces_without_use number b) ∷ []) (option_map given_braces braces.entry))) (kind_given number commodity (option_map (λ b. b.date) braces.entry) cost) }
    ensures ranged { is_amount number ≡ true → IfSome cost (λ c. c.number ≤ most) → IfOk result (λ kind. posting_kind_in_range kind ≡ true) }
{
    let Some(GivenBraces { date, .. }) = braces else {
        return Ok(PostingKind::Plain {
            amount: number,
            commodity,
        });
    };
    let units = number.unsigned_abs();
    match cost {
        _ if number < 0 => Ok(PostingKind::Reduction {
            units,
            commodity,
            cost,
            date,
        }),
        Some(cost) if number > 0 => Ok(PostingKind::Purchase {
            units,
            commodity,
            cost,
            date,
        }),
        _ => Err(Refusal::BracesWithoutUse),
    }
}

fn is_blank(kind: PostingKind) -> bool
    ensures { result ≡ is_blank kind }
{
    matches!(kind, PostingKind::Blank)
}

fn has_blank(postings: &[Posting]) -> bool
    ensures { result ≡ holds_a_blank postings.now }
{
    postings.iter().any(|posting| is_blank(posting.kind))
}

impl<P: Policy> Ledger<P> {
    // 14: the cost in braces, with the number of its commodity.
    fn declared_cost(&self, braces: Option<GivenBraces<'_>>) -> Result<Option<Cost>, Refusal>
        ensures ranged { IfSome braces.entry (λ b. IfSome b.cost (λ c. is_amount c.number ≡ true)) → IfOk result (λ cost. IfSome cost (λ c. c.number ≤ most)) }
        ensures named { result ≡ unless (first_met (if_given (cost_not_declared self.now.state) (option_map given_braces braces.entry))) (option_and_then (λ b. option_map (cost_of self.now.state.names) b.cost) (option_map given_braces braces.entry)) }
    {
        let Some(cost) = braces.and_then(|braces| braces.cost) else {
            return Ok(None);
        };
        Ok(Some(Cost {
            number: cost.number.unsigned_abs(),
            commodity: self.declared(cost.commodity)?,
        }))
    }

    // 17
    fn check_own(&self, account: u16, commodity: u8) -> Result<(), Refusal>
        ensures { Checks NotTheOwnCommodity (not (own_agrees (own_of self.now.state.names (Some account)) commodity)) result }
    {
        let own = self.chart.own(account);
        refuse_unless(
            own.is_none_or(|own| own == commodity),
            Refusal::NotTheOwnCommodity,
        )
    }

    // The postings of the draft, if one is under way.
    fn drafted(&self) -> &[Posting]
        ensures { result.now ≡ drafted self.now.state.draft }
    {
        self.draft
            .as_ref()
            .map_or(&[], |draft| draft.postings.as_slice())
    }

    // 18
    fn check_room(&self) -> Result<(), Refusal>
        ensures { Checks TooManyPostings (too_many_postings (drafted self.now.state.draft)) result }
    {
        refuse_unless(
            self.drafted().len() < MOST_POSTINGS,
            Refusal::TooManyPostings,
        )
    }

    // 19
    fn check_one_blank(&self) -> Result<(), Refusal>
        ensures { Checks SecondBlank (holds_a_blank (drafted self.now.state.draft)) result }
    {
        refuse_unless(!has_blank(self.drafted()), Refusal::SecondBlank)
    }

    // The posting of a blank, if it may be posted.
    fn check_blank(&self, slip: &Slip, source: u32, account: &[u8]) -> Result<Posting, Refusal>
        ensures { result ≡ unless (first_met (blank_tests self.now.state slip.now.number account.now)) (posting_of self.now.state.names source account.now None) }
    {
        self.check_slip(slip)?;
        check_account_name(account)?;
        let account = self.opened(account)?;
        self.check_room()?;
        self.check_one_blank()?;
        Ok(Posting {
            line: source,
            account,
            kind: PostingKind::Blank,
        })
    }

    // 16 to 18 and 20: the posting, once its commodities have numbers.
    fn number_account(
        &self,
        source: u32,
        account: &[u8],
        amount: GivenAmount<'_>,
        commodity: u8,
        cost: Option<Cost>,
    ) -> Result<Posting, Refusal>
        requires { is_some cost ≡ is_some (option_and_then (λ b. b.cost) amount.braces) }
        ensures checked { result ≡ unless (first_met (account_tests self.now.state account.now commodity (given_amount amount.entry))) (posting_to self.now.state.names source account.now (kind_given amount.entry.number commodity (option_map (λ b. b.date) amount.entry.braces) cost)) }
        ensures ranged { is_amount amount.entry.number ≡ true → IfSome cost (λ c. c.number ≤ most) → IfOk result (λ p. posting_in_range p ≡ true) }
        ensures room { OnOk result (HasPlace self.now.state) }
    {
        let account = self.opened(account)?;
        self.check_own(account, commodity)?;
        self.check_room()?;
        Ok(Posting {
            line: source,
            account,
            kind: kind_of(amount.number, commodity, amount.braces, cost)?,
        })
    }

    // 14, and what follows it: names become numbers.
    fn number_commodities(
        &self,
        source: u32,
        account: &[u8],
        amount: GivenAmount<'_>,
    ) -> Result<Posting, Refusal>
        ensures checked { result ≡ unless (first_met (commodity_tests self.now.state account.now (given_amount amount.entry))) (posting_of self.now.state.names source account.now (Some (given_amount amount.entry))) }
        ensures ranged { is_amount amount.entry.number ≡ true → IfSome amount.entry.braces (λ b. IfSome b.cost (λ c. is_amount c.number ≡ true)) → IfOk result (λ p. posting_in_range p ≡ true) }
        ensures room { OnOk result (HasPlace self.now.state) }
    {
        let commodity = self.declared(amount.commodity)?;
        let cost = self.declared_cost(amount.braces)?;
        self.number_account(source, account, amount, commodity, cost)
    }

    // The posting of an amount, if it may be posted.
    fn check_amount(
        &self,
        slip: &Slip,
        source: u32,
        account: &[u8],
        amount: GivenAmount<'_>,
    ) -> Result<Posting, Refusal>
        ensures checked { result ≡ unless (first_met (amount_tests self.now.state slip.now.number account.now (given_amount amount.entry))) (posting_of self.now.state.names source account.now (Some (given_amount amount.entry))) }
        ensures ranged { IfOk result (λ p. posting_in_range p ≡ true) }
        ensures room { OnOk result (HasPlace self.now.state) }
    {
        self.check_slip(slip)?;
        check_amount(account, amount)?;
        self.number_commodities(source, account, amount)
    }

    // The posting, if it may be posted; without an amount it is a blank.
    fn check_posting(
        &self,
        slip: &Slip,
        source: u32,
        account: &[u8],
        amount: Option<GivenAmount<'_>>,
    ) -> Result<Posting, Refusal>
        ensures checked { result ≡ unless (first_met (posting_tests self.now.state slip.now.number account.now (option_map given_amount amount.entry))) (posting_of self.now.state.names source account.now (option_map given_amount amount.entry)) }
        ensures ranged { IfOk result (λ p. posting_in_range p ≡ true) }
        ensures room { OnOk result (HasPlace self.now.state) }
    {
        match amount {
            None => self.check_blank(slip, source, account),
            Some(amount) => self.check_amount(slip, source, account, amount),
        }
    }

    // The posting joins the draft under way.
    fn join(&mut self, posting: Posting)
        requires ranged { posting_in_range posting ≡ true }
        requires room { HasPlace self.old.state }
        ensures { self.new ≡ in_state self.old (with_draft self.old.state (option_map (with_posting posting) self.old.state.draft)) }
    {
        if let Some(draft) = &mut self.draft {
            draft.postings.push(posting).unwrap();
        }
    }

    // Adds a posting to the draft of a slip; without an amount, a blank.
    pub fn post(
        &mut self,
        slip: &Slip,
        source: u32,
        account: &[u8],
        amount: Option<GivenAmount<'_>>,
    ) -> Result<(), Fault>
        ensures { (outcome_of (λ _. Done) result, self.new) ≡ carried_out P.Policy.order self.old (posting slip.now.number source account.now (option_map given_amount amount.entry)) }
    {
        let checked = self.check_posting(slip, source, account, amount);
        let posting = reported(source, checked)?;
        self.join(posting);
        Ok(())
    }
}
