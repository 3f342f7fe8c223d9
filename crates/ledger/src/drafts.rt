// Beginning and tearing a draft.
ghost use Rattle.std.specs.Prelude.{◌≡◌, ◌+◌, Some};
ghost use Rattle.refusal.specs.Refusing.{first_met, unless};
ghost use Rattle.books.specs.Calls.{beginning, tearing};
ghost use Rattle.books.specs.Changes.{new_draft, with_draft};
ghost use Rattle.ledger.specs.Answers.{carried_out};
ghost use Rattle.books.specs.declared.outcome.Outcome.TheVariants.{Begun, Done};
ghost use Rattle.books.specs.Refusals.{beginning_tests};
ghost use Rattle.ledger.specs.Answers.{outcome_of, outcome_with_slip, GivesBack};
ghost use Rattle.ledger.specs.Kept.{in_state};

use crate::Ledger;
use crate::fault::reported;
use crate::rank::Rank;
use crate::slip::Slip;
use booking::draft::Draft;
use booking::postings::Postings;
use drafting::checks::check_date;
use lots::policy::Policy;
use refusal::{Fault, Refusal};
use values::flag::Flag;

impl<P: Policy> Ledger<P> {
    fn check_beginning(&self, date: u32) -> Result<(), Refusal>
        ensures { result ≡ unless (first_met (beginning_tests self.now.state date)) tt }
    {
        self.check_no_draft()?;
        check_date(date)?;
        self.check_forward(date, Rank::Transacting)
    }

    fn start_draft(&mut self, source: u32, date: u32, flag: Flag) -> Slip
        ensures slip { result.number ≡ self.old.state.transactions + 1 }
        ensures drafted { self.new ≡ in_state self.old (with_draft self.old.state (Some (new_draft source date flag))) }
    {
        self.draft = Some(Draft {
            line: source,
            date,
            flag,
            postings: Postings::new(),
        });
        Slip {
            number: self.transactions + 1,
        }
    }

    // Starts an empty draft and hands out its slip.
    pub fn begin(&mut self, source: u32, date: u32, flag: Flag) -> Result<Slip, Fault>
        ensures { (outcome_of (λ slip. Begun slip.number) result, self.new) ≡ carried_out P.Policy.order self.old (beginning source date flag) }
    {
        reported(source, self.check_beginning(date))?;
        Ok(self.start_draft(source, date, flag))
    }

    // Throws the draft of a slip away; refused, the slip comes back.
    pub fn tear(&mut self, slip: Slip) -> Result<(), (Slip, Fault)>
        ensures answer { (outcome_with_slip (λ _. Done) result, self.new) ≡ carried_out P.Policy.order self.old (tearing slip.number) }
        ensures slip { GivesBack slip result }
    {
        if let Err(refusal) = self.check_slip(&slip) {
            return Err((slip, refusal.on(0)));
        }
        let Slip { number: _ } = slip;
        self.draft = None;
        Ok(())
    }
}
