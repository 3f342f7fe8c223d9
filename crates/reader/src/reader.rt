// The reader of a journal: a state machine that takes one step at a time.
ghost use Rattle.std.specs.Prelude.{◌≡◌, ◌+◌, ◌<◌, ◌≤◌, false, [], length, None};
ghost use Rattle.lines.specs.Lines.{lines_of};
ghost use Rattle.reader.specs.Does.{Held, ledger_after, record_after_turn};
ghost use Rattle.reader.specs.Readings.{ends_draft, is_done, taking_turn, step_turn, lines_left, number_left, steps_left};

use crate::phase::Phase;
use crate::step::{Step, directive_line, post_line, settle};
use books::outcome::Outcome;
use ledger::Ledger;
use ledger::desk::Desk;
use ledger::slip::Slip;
use lines::journal::split_line;
use lines::line::{LineKind, kind_of, stray_fault};
use lots::policy::Policy;

// Where the reader is, what is left of the journal, and the number of the next line.
#[derive(Clone, Copy)]
pub struct Reader<'a> {
    pub phase: Phase,
    pub rest: &'a [u8],
    pub number: u32,
}

// In a transaction, any line but a posting line ends the draft, and so does the end of the journal.
fn ends_draft(phase: Phase, kind: Option<LineKind>) -> bool
    ensures { result ≡ ends_draft phase kind }
{
    phase == Phase::InTransaction && kind != Some(LineKind::Posting)
}

// Outside of a transaction no slip is held.
pub fn let_none_go(slip: Option<Slip>)
    requires { slip ≡ None }
{
    if let Some(_slip) = slip {
        unreachable!()
    }
}

// What a line does depends on where the reader is and on the line's kind. In a transaction it takes the slip; else there is none.
#[tactic(auto, using(crate::proofs::Quiet::posting_writes_nothing))]
fn take<P: Policy>(
    phase: Phase,
    slip: Option<Slip>,
    ledger: &mut Ledger<P>,
    number: u32,
    line: &[u8],
    book: &mut [u8],
    desk: &mut Desk,
) -> Step
    requires { Held phase slip ledger.old.state }
    ensures phase { result.phase ≡ (taking_turn (P.Policy.order ledger.old.policy) ledger.old.state (length book.old) number phase line.now).next }
    ensures outcome { result.outcome ≡ (taking_turn (P.Policy.order ledger.old.policy) ledger.old.state (length book.old) number phase line.now).outcome }
    ensures slip { Held result.phase result.slip ledger.new.state }
    ensures ledger { ledger.new ≡ ledger_after P.Policy.order ledger.old (taking_turn (P.Policy.order ledger.old.policy) ledger.old.state (length book.old) number phase line.now) }
    ensures book { book.new ≡ record_after_turn P.Policy.order ledger.old (taking_turn (P.Policy.order ledger.old.policy) ledger.old.state (length book.old) number phase line.now) book.old }
{
    match (phase, kind_of(line)) {
        (Phase::InTransaction, LineKind::Posting) => {
            post_line(ledger, slip.unwrap(), number, line)
        }
        (Phase::InTransaction, _) => settle(ledger, slip.unwrap(), book, desk),
        (Phase::Outside, LineKind::Posting) => Step {
            phase: Phase::Skipping,
            slip,
            outcome: Some(Outcome::Refused(stray_fault(line, number))),
        },
        (Phase::Skipping, LineKind::Posting) => Step {
            phase: Phase::Skipping,
            slip,
            outcome: None,
        },
        (_, LineKind::Blank) => Step {
            phase: Phase::Outside,
            slip,
            outcome: None,
        },
        (_, LineKind::Other) => {
            let_none_go(slip);
            directive_line(ledger, number, line, book, desk)
        }
    }
}

// The end of the journal.
fn end<P: Policy>(
    phase: Phase,
    slip: Option<Slip>,
    ledger: &mut Ledger<P>,
    book: &mut [u8],
    desk: &mut Desk,
) -> Step
    requires { Held phase slip ledger.old.state }
    ensures phase { result.phase ≡ (step_turn (P.Policy.order ledger.old.policy) ledger.old.state (length book.old) 0 phase []).next }
    ensures outcome { result.outcome ≡ (step_turn (P.Policy.order ledger.old.policy) ledger.old.state (length book.old) 0 phase []).outcome }
    ensures slip { Held result.phase result.slip ledger.new.state }
    ensures ledger { ledger.new ≡ ledger_after P.Policy.order ledger.old (step_turn (P.Policy.order ledger.old.policy) ledger.old.state (length book.old) 0 phase []) }
    ensures book { book.new ≡ record_after_turn P.Policy.order ledger.old (step_turn (P.Policy.order ledger.old.policy) ledger.old.state (length book.old) 0 phase []) book.old }
{
    match (phase, slip) {
        (Phase::InTransaction, Some(slip)) => settle(ledger, slip, book, desk),
        (_, slip) => Step {
            phase: Phase::Outside,
            slip,
            outcome: None,
        },
    }
}

impl<'a> Reader<'a> {
    pub fn is_done(&self) -> bool
        ensures { result ≡ is_done self.now.phase (lines_of self.now.rest.now) }
    {
        split_line(self.rest).is_none() && !ends_draft(self.phase, None)
    }

    // One step. A line that ends a draft is read in the step behind that which settles it.
    pub fn step<P: Policy>(
        &mut self,
        slip: Option<Slip>,
        ledger: &mut Ledger<P>,
        book: &mut [u8],
        desk: &mut Desk,
    ) -> Step
        requires held { Held self.old.phase slip ledger.old.state }
        requires few { self.old.number + length self.old.rest.now ≤ 60001 }
        ensures phase { self.new.phase ≡ (step_turn (P.Policy.order ledger.old.policy) ledger.old.state (length book.old) self.old.number self.old.phase (lines_of self.old.rest.now)).next }
        ensures outcome { result.outcome ≡ (step_turn (P.Policy.order ledger.old.policy) ledger.old.state (length book.old) self.old.number self.old.phase (lines_of self.old.rest.now)).outcome }
        ensures slip { Held self.new.phase result.slip ledger.new.state }
        ensures ledger { ledger.new ≡ ledger_after P.Policy.order ledger.old (step_turn (P.Policy.order ledger.old.policy) ledger.old.state (length book.old) self.old.number self.old.phase (lines_of self.old.rest.now)) }
        ensures book { book.new ≡ record_after_turn P.Policy.order ledger.old (step_turn (P.Policy.order ledger.old.policy) ledger.old.state (length book.old) self.old.number self.old.phase (lines_of self.old.rest.now)) book.old }
        ensures lines { lines_of self.new.rest.now ≡ lines_left self.old.phase (lines_of self.old.rest.now) }
        ensures number { self.new.number ≡ number_left self.old.number self.old.phase (lines_of self.old.rest.now) }
        ensures few { self.new.number + length self.new.rest.now ≤ 60001 }
        ensures fewer { is_done self.old.phase (lines_of self.old.rest.now) ≡ false → steps_left self.new.phase (length self.new.rest.now) < steps_left self.old.phase (length self.old.rest.now) }
    {
        let phase = self.phase;
        let Some(cut) = split_line(self.rest) else {
            let step = end(phase, slip, ledger, book, desk);
            self.phase = step.phase;
            return step;
        };
        let step = take(phase, slip, ledger, self.number, cut.line, book, desk);
        self.phase = step.phase;
        if !ends_draft(phase, Some(kind_of(cut.line))) {
            self.rest = cut.rest;
            self.number += 1;
        }
        step
    }
}
