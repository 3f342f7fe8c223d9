// A ledger and its record, upon which the rows of a section are carried out one after another.
use crate::answers::Shown;
use crate::fields::{show_bytes, show_header, show_row};
use crate::seen::{Change, Seen};
use crate::step::{Filling, Question, Step};
use crate::table::Section;
use crate::tally::Tally;
use crate::words::Request;
use books::call::{Call, GivenAmount};
use books::outcome::Outcome;
use ledger::Ledger;
use ledger::desk::Desk;
use lots::policy::{Fifo, Lifo, Policy, Strict, WholeLot};
use std::alloc::Global;
use std::fmt::Write;
use values::flag::Flag;

// What each byte of a new record is.
const UNWRITTEN: u8 = 0xee;

#[derive(Drop)]
struct Trial<P> {
    heap: Global,
    ledger: Ledger<P>,
    book: Vec<u8>,
    desk: Desk,
}

// What a step was answered, in the words of the table.
#[derive(Drop)]
struct Answer {
    text: String,
    is_refused: bool,
}

impl<P: Policy + Drop> Trial<P> {
    fn new(heap: Global, policy: P, length: usize) -> anyhow::Result<Trial<P>> {
        Ok(Trial {
            heap,
            ledger: Ledger::new(policy),
            book: vec![in heap; UNWRITTEN; length]?,
            desk: Desk::new(),
        })
    }

    fn look(&self) -> anyhow::Result<Seen> {
        Seen::look(self.heap, &self.ledger, self.book.as_slice())
    }

    fn perform(&mut self, call: Call<'_>) -> Outcome {
        self.ledger
            .perform(call, self.book.as_mut_slice(), &mut self.desk)
    }

    // Sixteen postings of 0, as many as a draft takes. Their source numbers follow that of the beginning.
    fn post_nothing(&mut self, slip: u32, filling: Filling<'_>) -> Outcome {
        let amount = GivenAmount {
            number: 0,
            commodity: filling.commodity,
            braces: None,
        };
        for source in 2..=17 {
            let posted = self.perform(Call::Post {
                slip,
                source,
                account: filling.account,
                amount: Some(amount),
            });
            if posted != Outcome::Done {
                return posted;
            }
        }
        Outcome::Done
    }

    fn fill_once(&mut self, filling: Filling<'_>) -> Outcome {
        let begun = self.perform(Call::Begin {
            source: 1,
            date: filling.date,
            flag: Flag::Complete,
        });
        let Outcome::Begun(slip) = begun else {
            return begun;
        };
        let posted = self.post_nothing(slip, filling);
        if posted != Outcome::Done {
            return posted;
        }
        let lent = self.book.len();
        self.perform(Call::Settle { slip, lent })
    }

    // What the last settling answers, or what was refused before.
    fn fill(&mut self, filling: Filling<'_>) -> Outcome {
        let mut last = Outcome::Done;
        for _ in 0..filling.times {
            last = self.fill_once(filling);
            if matches!(last, Outcome::Refused(_)) {
                return last;
            }
        }
        last
    }

    fn ask(&self, question: Question) -> anyhow::Result<String> {
        let mut out = String::new(self.heap);
        let book = self.book.as_slice();
        match question {
            Question::Holding { account, commodity } => {
                write!(out, "{}", Shown(self.ledger.holding(account, commodity)))?
            }
            Question::PlainBalance { account, commodity } => write!(
                out,
                "{}",
                Shown(self.ledger.plain_balance(account, commodity))
            )?,
            Question::Counts => write!(out, "{}", Shown(self.ledger.counts()))?,
            Question::Lot { serial } => write!(out, "{}", Shown(self.ledger.lot(serial)))?,
            Question::Header => show_header(book, &mut out)?,
            Question::Row { number } => show_row(book, number, &mut out)?,
            Question::Bytes { from, to } => show_bytes(book, from, to, &mut out)?,
        }
        Ok(out)
    }

    fn carry_out(&mut self, step: Step<'_>) -> anyhow::Result<Answer> {
        let outcome = match step {
            Step::Call(call) => self.perform(call),
            Step::Filling(filling) => self.fill(filling),
            Step::Record { length } => {
                self.book = vec![in self.heap; UNWRITTEN; length]?;
                Outcome::Done
            }
            Step::Question(question) => {
                return Ok(Answer {
                    text: self.ask(question)?,
                    is_refused: false,
                });
            }
        };
        Ok(Answer {
            text: format!(in self.heap; "{}", Shown(outcome))?,
            is_refused: matches!(outcome, Outcome::Refused(_)),
        })
    }

    // Whether a step changed no more than it may: refused, nothing.
    fn keeps(&self, step: Step<'_>, is_refused: bool, before: &Seen) -> anyhow::Result<bool> {
        let change = if is_refused {
            Change::Nothing
        } else {
            step.change()
        };
        Ok(self.look()?.keeps_but(change, before))
    }

    // Whether a step is answered as expected and changes no more than it may.
    fn holds(&mut self, expected: &str, step: Step<'_>, tally: &mut Tally) -> anyhow::Result<bool> {
        let before = self.look()?;
        let answer = self.carry_out(step)?;
        let is_expected = answer.text.as_str() == expected;
        if !is_expected {
            tally.tell("found", answer.text.as_str())?;
        }
        let is_kept = self.keeps(step, answer.is_refused, &before)?;
        if !is_kept {
            tally.tell("changed what it may not", answer.text.as_str())?;
        }
        Ok(is_expected && is_kept)
    }

    fn hold_row(&mut self, row: &str, tally: &mut Tally) -> anyhow::Result<bool> {
        let Some((expected, text)) = row.split_once('\t') else {
            return Ok(false);
        };
        let Some(request) = Request::read(self.heap, text)? else {
            return Ok(false);
        };
        let Some(step) = Step::of(&request) else {
            return Ok(false);
        };
        self.holds(expected, step, tally)
    }

    fn hold_rows(&mut self, rows: &[&str], tally: &mut Tally) -> anyhow::Result<()> {
        for row in rows {
            let holds = self.hold_row(row, tally)?;
            tally.count(row, holds)?;
        }
        Ok(())
    }
}

// The rows upon a new ledger of a policy, with a record of this length.
fn hold_upon<P: Policy + Drop>(
    heap: Global,
    policy: P,
    length: usize,
    rows: &[&str],
    tally: &mut Tally,
) -> anyhow::Result<()> {
    Trial::new(heap, policy, length)?.hold_rows(rows, tally)
}

// Without a ledger no row holds, nor does the one that was to start it.
fn hold_none(section: &Section<'_>, tally: &mut Tally) -> anyhow::Result<()> {
    tally.count(section.ledger, false)?;
    for row in &section.rows {
        tally.count(row, false)?;
    }
    Ok(())
}

fn ledger_of<'a>(section: &Section<'a>) -> Option<(&'a str, usize)> {
    let (policy, length) = section.ledger.split_once(' ')?;
    Some((policy, length.parse::<usize>().ok()?))
}

pub(crate) fn hold_section(
    heap: Global,
    section: &Section<'_>,
    tally: &mut Tally,
) -> anyhow::Result<()> {
    let rows = section.rows.as_slice();
    let Some((policy, length)) = ledger_of(section) else {
        return hold_none(section, tally);
    };
    match policy {
        "strict" => hold_upon(heap, Strict, length, rows, tally),
        "fifo" => hold_upon(heap, Fifo, length, rows, tally),
        "lifo" => hold_upon(heap, Lifo, length, rows, tally),
        "whole-lot-strict" => hold_upon(heap, WholeLot { below: Strict }, length, rows, tally),
        "whole-lot-fifo" => hold_upon(heap, WholeLot { below: Fifo }, length, rows, tally),
        "whole-lot-lifo" => hold_upon(heap, WholeLot { below: Lifo }, length, rows, tally),
        _ => hold_none(section, tally),
    }
}
