// One call that is handed over as a value, with its slip by number.
ghost use Rattle.std.specs.Prelude.{◌≡◌, length};
ghost use Rattle.books.specs.Calls.{posting, settling, tearing, writing_header};
ghost use Rattle.books.specs.declared.outcome.Outcome.TheVariants.{Done};
ghost use Rattle.books.specs.Given.{given_amount, given_call};
ghost use Rattle.books.specs.Lending.{lend_within};
ghost use Rattle.books.specs.Recording.{record_after_call};
ghost use Rattle.books.specs.Steps.{AnswersFirst};
ghost use Rattle.std.specs.Option.{option_map};
ghost use Rattle.ledger.specs.Answers.{carried_out, outcome_of};

use crate::Ledger;
use crate::desk::Desk;
use crate::slip::Slip;
use books::call::{Call, GivenAmount};
use books::outcome::Outcome;
use lots::policy::Policy;
use refusal::Fault;

fn done(answer: Result<(), Fault>) -> Outcome
    ensures { result ≡ outcome_of (λ _. Done) answer }
{
    match answer {
        Ok(()) => Outcome::Done,
        Err(fault) => Outcome::Refused(fault),
    }
}

impl<P: Policy> Ledger<P> {
    fn perform_posting(
        &mut self,
        slip: u32,
        source: u32,
        account: &[u8],
        amount: Option<GivenAmount<'_>>,
    ) -> Outcome
        ensures { (result, self.new) ≡ carried_out P.Policy.order self.old (posting slip source account.now (option_map given_amount amount.entry)) }
    {
        let slip = Slip { number: slip };
        let answer = self.post(&slip, source, account, amount);
        let Slip { number: _ } = slip;
        done(answer)
    }

    fn perform_settling(
        &mut self,
        slip: u32,
        lent: usize,
        book: &mut [u8],
        desk: &mut Desk,
    ) -> Outcome
        ensures answer { (result, self.new) ≡ carried_out P.Policy.order self.old (lend_within (length book.old) (settling slip lent)) }
        ensures book { book.new ≡ record_after_call (P.Policy.order self.old.policy) self.old.state (lend_within (length book.old) (settling slip lent)) book.old }
    {
        let lent = lent.min(book.len());
        match self.settle(Slip { number: slip }, &mut book[..lent], desk) {
            Ok(number) => Outcome::Settled(number),
            Err((Slip { number: _ }, fault)) => Outcome::Refused(fault),
        }
    }

    fn perform_tearing(&mut self, slip: u32) -> Outcome
        ensures { (result, self.new) ≡ carried_out P.Policy.order self.old (tearing slip) }
    {
        match self.tear(Slip { number: slip }) {
            Ok(()) => Outcome::Done,
            Err((Slip { number: _ }, fault)) => Outcome::Refused(fault),
        }
    }

    fn perform_header(&self, lent: usize, book: &mut [u8]) -> Outcome
        ensures answer { (result, self.now) ≡ carried_out P.Policy.order self.now (lend_within (length book.old) (writing_header lent)) }
        ensures book { book.new ≡ record_after_call (P.Policy.order self.now.policy) self.now.state (lend_within (length book.old) (writing_header lent)) book.old }
    {
        let lent = lent.min(book.len());
        done(self.write_header(&mut book[..lent]))
    }

    // One call, whichever it is.
    fn dispatch(&mut self, call: Call<'_>, book: &mut [u8], desk: &mut Desk) -> Outcome
        ensures answer { (result, self.new) ≡ carried_out P.Policy.order self.old (lend_within (length book.old) (given_call call.entry)) }
        ensures book { book.new ≡ record_after_call (P.Policy.order self.old.policy) self.old.state (lend_within (length book.old) (given_call call.entry)) book.old }
    {
        match call {
            Call::Declare { source, date, name } => self
                .declare(source, date, name)
                .map_or_else(Outcome::Refused, Outcome::Declared),
            Call::Open {
                source,
                date,
                name,
                own,
            } => self
                .open(source, date, name, own)
                .map_or_else(Outcome::Refused, Outcome::Opened),
            Call::Assert {
                source,
                date,
                account,
                amount,
                commodity,
            } => done(self.assert_balance(source, date, account, amount, commodity)),
            Call::Close {
                source,
                date,
                account,
            } => done(self.close(source, date, account)),
            Call::Begin { source, date, flag } => match self.begin(source, date, flag) {
                Ok(Slip { number }) => Outcome::Begun(number),
                Err(fault) => Outcome::Refused(fault),
            },
            Call::Post {
                slip,
                source,
                account,
                amount,
            } => self.perform_posting(slip, source, account, amount),
            Call::Settle { slip, lent } => self.perform_settling(slip, lent, book, desk),
            Call::Tear { slip } => self.perform_tearing(slip),
            Call::WriteHeader { lent } => self.perform_header(lent, book),
        }
    }

    // Carries out one call, or answers the first refusal of its table that it meets. A settling, and the header call, are lent
    // as many bytes of the record as they say, or all if it has fewer. That the first refusal is answered is shown here once,
    // and not for each call above.
    pub fn perform(&mut self, call: Call<'_>, book: &mut [u8], desk: &mut Desk) -> Outcome
        ensures answer { (result, self.new) ≡ carried_out P.Policy.order self.old (lend_within (length book.old) (given_call call.entry)) }
        ensures refused_exactly_where { AnswersFirst (P.Policy.order self.old.policy) self.old.state (lend_within (length book.old) (given_call call.entry)) (result, self.new.state) }
        ensures book { book.new ≡ record_after_call (P.Policy.order self.old.policy) self.old.state (lend_within (length book.old) (given_call call.entry)) book.old }
    {
        self.dispatch(call, book, desk)
    }
}
