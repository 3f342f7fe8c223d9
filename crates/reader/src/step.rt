// One step of the reader: what it does with a draft that is ended, or with a line.
ghost use Rattle.std.specs.Prelude.{◌≡◌, ◌∷◌, [], Ok, Some, None, cond, length};
ghost use Rattle.std.specs.Option.{option_map};
ghost use Rattle.books.specs.Calls as call;
ghost use Rattle.books.specs.Steps.{state_after};
ghost use Rattle.books.specs.Slips.{HoldsSlip};
ghost use Rattle.books.specs.declared.outcome.Outcome.TheVariants.{Refused};
ghost use Rattle.reader.specs.declared.phase.Phase.TheVariants.{Outside, InTransaction, Skipping};
ghost use Rattle.law.specs.Histories.{accepted};
ghost use Rattle.ledger.specs.Kept.{in_state};
ghost use Rattle.lines.specs.Lines.{line_says};
ghost use Rattle.lines.specs.Said.{said, posting_said};
ghost use Rattle.reader.specs.Asked.{units_given};
ghost use Rattle.reader.specs.Does.{Held, ledger_after, record_after_turn};
ghost use Rattle.reader.specs.Turns.{posted, posting_turn, settling_turn, said_turn, calling, directive_turn};

use crate::asked::amount;
use crate::phase::Phase;
use books::call::Call;
use books::outcome::Outcome;
use ledger::Ledger;
use ledger::desk::Desk;
use ledger::slip::Slip;
use lines::directive::{Directive, Posting};
use lines::fault::LineFault;
use lines::line::read_line;
use lots::policy::Policy;
use refusal::Fault;
use values::date::Date;
use values::flag::Flag;

// How a step ends: where the reader is, the slip of the draft under way if there is one, and the step's outcome if it has one.
pub struct Step {
    pub phase: Phase,
    pub slip: Option<Slip>,
    pub outcome: Option<Outcome>,
}

impl Step {
    // Outside of a transaction.
    fn without_slip(phase: Phase, outcome: Option<Outcome>) -> Step
        ensures { result ≡ record { phase = phase; slip = None; outcome = outcome } }
    {
        Step {
            phase,
            slip: None,
            outcome,
        }
    }

    fn refused(fault: Fault) -> Step
        ensures { result ≡ record { phase = Skipping; slip = None; outcome = Some (Refused fault) } }
    {
        Step::without_slip(Phase::Skipping, Some(Outcome::Refused(fault)))
    }
}

// Tears the draft of a slip.
fn tear<P: Policy>(ledger: &mut Ledger<P>, slip: Slip)
    requires { HoldsSlip ledger.old.state slip.number }
    ensures { ledger.new ≡ in_state ledger.old (state_after (P.Policy.order ledger.old.policy) ledger.old.state (call.tearing slip.number ∷ [])) }
{
    if let Err((_slip, _)) = ledger.tear(slip) {
        // the slip is that of the draft
        unreachable!()
    }
}

// Settles the draft of a slip, or tears it.
pub(crate) fn settle<P: Policy>(
    ledger: &mut Ledger<P>,
    slip: Slip,
    book: &mut [u8],
    desk: &mut Desk,
) -> Step
    requires { HoldsSlip ledger.old.state slip.number }
    ensures phase { result.phase ≡ (settling_turn (P.Policy.order ledger.old.policy) ledger.old.state (length book.old)).next }
    ensures outcome { result.outcome ≡ (settling_turn (P.Policy.order ledger.old.policy) ledger.old.state (length book.old)).outcome }
    ensures slip { Held result.phase result.slip ledger.new.state }
    ensures ledger { ledger.new ≡ ledger_after P.Policy.order ledger.old (settling_turn (P.Policy.order ledger.old.policy) ledger.old.state (length book.old)) }
    ensures book { book.new ≡ record_after_turn P.Policy.order ledger.old (settling_turn (P.Policy.order ledger.old.policy) ledger.old.state (length book.old)) book.old }
{
    let outcome = match ledger.settle(slip, book, desk) {
        Ok(number) => Outcome::Settled(number),
        Err((slip, fault)) => {
            tear(ledger, slip);
            Outcome::Refused(fault)
        }
    };
    Step::without_slip(Phase::Outside, Some(outcome))
}

// A posting to the draft of a slip; refused, the draft is torn.
fn post<P: Policy>(ledger: &mut Ledger<P>, slip: Slip, number: u32, posting: Posting<'_>) -> Step
    requires { HoldsSlip ledger.old.state slip.number }
    ensures phase { result.phase ≡ ((posted (P.Policy.order ledger.old.policy) ledger.old.state (call.posting slip.number number posting.entry.account.text.now (option_map units_given (posting_said posting.entry).units)))).next }
    ensures outcome { result.outcome ≡ ((posted (P.Policy.order ledger.old.policy) ledger.old.state (call.posting slip.number number posting.entry.account.text.now (option_map units_given (posting_said posting.entry).units)))).outcome }
    ensures slip { Held result.phase result.slip ledger.new.state }
    ensures ledger { ledger.new ≡ ledger_after P.Policy.order ledger.old (posted (P.Policy.order ledger.old.policy) ledger.old.state (call.posting slip.number number posting.entry.account.text.now (option_map units_given (posting_said posting.entry).units))) }
{
    let units = posting.units.map(amount);
    match ledger.post(&slip, number, posting.account.text, units) {
        Ok(()) => Step {
            phase: Phase::InTransaction,
            slip: Some(slip),
            outcome: Some(Outcome::Done),
        },
        Err(fault) => {
            tear(ledger, slip);
            Step::refused(fault)
        }
    }
}

// A posting line, which says nothing but a posting, of the transaction under way.
pub(crate) fn post_line<P: Policy>(
    ledger: &mut Ledger<P>,
    slip: Slip,
    number: u32,
    line: &[u8],
) -> Step
    requires { HoldsSlip ledger.old.state slip.number }
    ensures phase { result.phase ≡ (posting_turn (P.Policy.order ledger.old.policy) ledger.old.state number (line_says number line.now)).next }
    ensures outcome { result.outcome ≡ (posting_turn (P.Policy.order ledger.old.policy) ledger.old.state number (line_says number line.now)).outcome }
    ensures slip { Held result.phase result.slip ledger.new.state }
    ensures ledger { ledger.new ≡ ledger_after P.Policy.order ledger.old (posting_turn (P.Policy.order ledger.old.policy) ledger.old.state number (line_says number line.now)) }
{
    match read_line(line, number) {
        Ok(Some(Directive::Posting(posting))) => post(ledger, slip, number, posting),
        Ok(_) => Step {
            phase: Phase::InTransaction,
            slip: Some(slip),
            outcome: None,
        },
        Err(fault) => {
            tear(ledger, slip);
            Step::refused(fault)
        }
    }
}

// A transaction's first line.
fn begin<P: Policy>(ledger: &mut Ledger<P>, number: u32, date: Date, flag: Flag) -> Step
    ensures phase { result.phase ≡ (calling (P.Policy.order ledger.old.policy) ledger.old.state InTransaction (Some (call.beginning number date.number flag))).next }
    ensures outcome { result.outcome ≡ (calling (P.Policy.order ledger.old.policy) ledger.old.state InTransaction (Some (call.beginning number date.number flag))).outcome }
    ensures slip { Held result.phase result.slip ledger.new.state }
    ensures ledger { ledger.new ≡ ledger_after P.Policy.order ledger.old (calling (P.Policy.order ledger.old.policy) ledger.old.state InTransaction (Some (call.beginning number date.number flag))) }
{
    match ledger.begin(number, date.number(), flag) {
        Ok(slip) => {
            let outcome = Outcome::Begun(slip.number());
            Step {
                phase: Phase::InTransaction,
                slip: Some(slip),
                outcome: Some(outcome),
            }
        }
        Err(fault) => Step::refused(fault),
    }
}

fn is_accepted(outcome: &Outcome) -> bool
    ensures { result ≡ accepted outcome.now }
{
    !matches!(outcome, Outcome::Refused(_))
}

// A call that hands out no slip.
fn answered(outcome: Outcome) -> Step
    ensures { result ≡ record { phase = cond (accepted outcome) Outside Skipping; slip = None; outcome = Some outcome } }
{
    let phase = if is_accepted(&outcome) {
        Phase::Outside
    } else {
        Phase::Skipping
    };
    Step::without_slip(phase, Some(outcome))
}

// What a directive line says, outside of a transaction.
fn carry_out<P: Policy>(
    ledger: &mut Ledger<P>,
    number: u32,
    directive: Directive<'_>,
    book: &mut [u8],
    desk: &mut Desk,
) -> Step
    ensures phase { result.phase ≡ (said_turn (P.Policy.order ledger.old.policy) ledger.old.state number (said directive.entry)).next }
    ensures outcome { result.outcome ≡ (said_turn (P.Policy.order ledger.old.policy) ledger.old.state number (said directive.entry)).outcome }
    ensures slip { Held result.phase result.slip ledger.new.state }
    ensures ledger { ledger.new ≡ ledger_after P.Policy.order ledger.old (said_turn (P.Policy.order ledger.old.policy) ledger.old.state number (said directive.entry)) }
    ensures book { book.new ≡ record_after_turn P.Policy.order ledger.old (said_turn (P.Policy.order ledger.old.policy) ledger.old.state number (said directive.entry)) book.old }
{
    let source = number;
    match directive {
        Directive::BookingMethod(_) => Step::without_slip(Phase::Outside, None),
        Directive::Transaction { date, flag, .. } => begin(ledger, number, date, flag),
        Directive::Posting(posting) => {
            Step::refused(LineFault::Form(posting.account.place).on(number))
        }
        Directive::Commodity { date, name } => answered(ledger.perform(
            Call::Declare {
                source,
                date: date.number(),
                name: name.text,
            },
            book,
            desk,
        )),
        Directive::Open {
            date,
            account,
            commodity,
        } => answered(ledger.perform(
            Call::Open {
                source,
                date: date.number(),
                name: account.text,
                own: commodity.map(|own| own.text),
            },
            book,
            desk,
        )),
        Directive::Close { date, account } => answered(ledger.perform(
            Call::Close {
                source,
                date: date.number(),
                account: account.text,
            },
            book,
            desk,
        )),
        Directive::Balance {
            date,
            account,
            amount,
            commodity,
            ..
        } => answered(ledger.perform(
            Call::Assert {
                source,
                date: date.number(),
                account: account.text,
                amount: amount.hundredths(),
                commodity: commodity.text,
            },
            book,
            desk,
        )),
    }
}

// A directive line, outside of a transaction or behind a refused line.
pub(crate) fn directive_line<P: Policy>(
    ledger: &mut Ledger<P>,
    number: u32,
    line: &[u8],
    book: &mut [u8],
    desk: &mut Desk,
) -> Step
    ensures phase { result.phase ≡ (directive_turn (P.Policy.order ledger.old.policy) ledger.old.state number (line_says number line.now)).next }
    ensures outcome { result.outcome ≡ (directive_turn (P.Policy.order ledger.old.policy) ledger.old.state number (line_says number line.now)).outcome }
    ensures slip { Held result.phase result.slip ledger.new.state }
    ensures ledger { ledger.new ≡ ledger_after P.Policy.order ledger.old (directive_turn (P.Policy.order ledger.old.policy) ledger.old.state number (line_says number line.now)) }
    ensures book { book.new ≡ record_after_turn P.Policy.order ledger.old (directive_turn (P.Policy.order ledger.old.policy) ledger.old.state number (line_says number line.now)) book.old }
{
    match read_line(line, number) {
        Ok(None) => Step::without_slip(Phase::Outside, None),
        Ok(Some(directive)) => carry_out(ledger, number, directive, book, desk),
        Err(fault) => Step::refused(fault),
    }
}
