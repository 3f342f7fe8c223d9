// A whole journal, booked on a new ledger.
#![tactic(auto)]

ghost use Rattle.std.specs.Prelude.{◌≡◌, ◌+◌, ◌*◌, ◌≤◌, length};
ghost use Rattle.lines.specs.Lines.{lines_of};
ghost use Rattle.books.specs.Recording.{record_after_calls};
ghost use Rattle.books.specs.States.{empty_ledger};
ghost use Rattle.ledger.specs.Kept.{in_state};
ghost use Rattle.journals.specs.Places.{placed};
ghost use Rattle.journals.specs.Accepted.{AcceptedExactly};
ghost use Rattle.journals.specs.Answers.{answers_of};
ghost use Rattle.journals.specs.Methods.{method_of};
ghost use Rattle.law.specs.Laws.{Lawful};
ghost use Rattle.law.specs.Records.{RecordHolds};
ghost use Rattle.reader.specs.Readings.{unread, books, read_from, journal_read};

use crate::places::place;
use books::outcome::Outcome;
use ledger::Ledger;
use ledger::desk::Desk;
use lines::directive::{Directive, Method};
use lines::journal::{check_journal, split_line};
use lines::line::read_line;
use lots::policy::Policy;
use reader::phase::Phase;
use reader::reader::{Reader, let_none_go};
use reader::step::Step;

mod places;

// Reads all lines, and answers how many outcomes there were.
fn read_lines<P: Policy>(
    ledger: &mut Ledger<P>,
    journal: &[u8],
    answers: &mut [Outcome],
    book: &mut [u8],
) -> usize
    requires new { ledger.old.state ≡ empty_ledger }
    requires few { length journal.now ≤ 60000 }
    ensures count { result ≡ length (read_from (P.Policy.order ledger.old.policy) (length book.old) 1 unread (lines_of journal.now)).outcomes }
    ensures outcomes { answers.new ≡ placed (read_from (P.Policy.order ledger.old.policy) (length book.old) 1 unread (lines_of journal.now)).outcomes answers.old }
    ensures ledger { ledger.new ≡ in_state ledger.old (books (P.Policy.order ledger.old.policy) (read_from (P.Policy.order ledger.old.policy) (length book.old) 1 unread (lines_of journal.now))) }
    ensures book { book.new ≡ record_after_calls (P.Policy.order ledger.old.policy) empty_ledger (read_from (P.Policy.order ledger.old.policy) (length book.old) 1 unread (lines_of journal.now)).calls book.old }
{
    let mut reader = Reader {
        phase: Phase::Outside,
        rest: journal,
        number: 1,
    };
    let mut slip = None;
    let mut desk = Desk::new();
    let mut count = 0;
    while !reader.is_done() {
        let Step {
            phase: _,
            slip: back,
            outcome,
        } = reader.step(slip, ledger, book, &mut desk);
        slip = back;
        count = place(answers, count, outcome);
    }
    let_none_go(slip);
    count
}

// The ledger that a journal leaves, and how many outcomes its steps had.
#[derive(Drop)]
pub struct BookedJournal<P> {
    pub ledger: Ledger<P>,
    pub outcomes: usize,
}

// The ledger, the record and the outcomes, without the law over them.
fn book_lines<P: Policy>(
    policy: P,
    journal: &[u8],
    places: &mut [Outcome],
    book: &mut [u8],
) -> BookedJournal<P>
    ensures outcomes { places.new ≡ placed (journal_read (P.Policy.order policy) (length book.old) journal.now).outcomes places.old }
    ensures count { result.outcomes ≡ length (journal_read (P.Policy.order policy) (length book.old) journal.now).outcomes }
    ensures ledger { result.ledger ≡ record { policy = policy; state = books (P.Policy.order policy) (journal_read (P.Policy.order policy) (length book.old) journal.now) } }
    ensures book { book.new ≡ record_after_calls (P.Policy.order policy) empty_ledger (journal_read (P.Policy.order policy) (length book.old) journal.now).calls book.old }
{
    let mut ledger = Ledger::new(policy);
    let outcomes = match check_journal(journal) {
        Ok(()) => read_lines(&mut ledger, journal, places, book),
        Err(fault) => place(places, 0, Some(Outcome::Refused(fault))),
    };
    BookedJournal { ledger, outcomes }
}

// The most outcomes that a journal can have: two for each line, its own and that of a draft that it ends, and one for the end.
pub fn most_outcomes(journal: &[u8]) -> usize
    ensures { result ≡ 2 * length (lines_of journal.now) + 1 }
{
    let mut most = 1;
    let mut rest = journal;
    while let Some(cut) = split_line(rest) {
        most += 2;
        rest = cut.rest;
    }
    most
}

// Reads a journal and books it on a new ledger and in a record. The outcomes go to the places that are lent, as many as there are.
pub fn book_journal<P: Policy>(
    policy: P,
    journal: &[u8],
    places: &mut [Outcome],
    book: &mut [u8],
) -> BookedJournal<P>
    ensures outcomes { places.new ≡ placed (journal_read (P.Policy.order policy) (length book.old) journal.now).outcomes places.old }
    ensures count { result.outcomes ≡ length (journal_read (P.Policy.order policy) (length book.old) journal.now).outcomes }
    ensures ledger { result.ledger ≡ record { policy = policy; state = books (P.Policy.order policy) (journal_read (P.Policy.order policy) (length book.old) journal.now) } }
    ensures book { book.new ≡ record_after_calls (P.Policy.order policy) empty_ledger (journal_read (P.Policy.order policy) (length book.old) journal.now).calls book.old }
    ensures few { result.outcomes ≤ 2 * length (lines_of journal.now) + 1 }
    ensures accepted_exactly { AcceptedExactly (P.Policy.order policy) (length book.old) (lines_of journal.now) }
    ensures lawful { Lawful (P.Policy.order policy) (journal_read (P.Policy.order policy) (length book.old) journal.now).calls (answers_of (P.Policy.order policy) (journal_read (P.Policy.order policy) (length book.old) journal.now)) result.ledger.state }
    ensures recorded { RecordHolds (P.Policy.order policy) (journal_read (P.Policy.order policy) (length book.old) journal.now).calls (answers_of (P.Policy.order policy) (journal_read (P.Policy.order policy) (length book.old) journal.now)) book.old book.new }
{
    book_lines(policy, journal, places, book)
}

// The booking method that the option line names, if the journal starts with one; else STRICT.
pub fn booking_method(journal: &[u8]) -> Method
    ensures { result ≡ method_of (lines_of journal.now) }
{
    let Some(cut) = split_line(journal) else {
        return Method::Strict;
    };
    match read_line(cut.line, 1) {
        Ok(Some(Directive::BookingMethod(method))) => method,
        _ => Method::Strict,
    }
}
