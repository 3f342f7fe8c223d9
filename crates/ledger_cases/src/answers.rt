// Answers in the words of the table.
use books::outcome::{Counts, Outcome};
use lots::rows::LotRow;
use refusal::Fault;
use std::fmt;

// A type around the others, since only a type of one's own can be given a `Display`.
#[derive(Clone, Copy)]
pub struct Shown<T>(pub T);

impl fmt::Display for Shown<Outcome> {
    fn fmt<W: fmt::Write>(&self, f: &mut fmt::Formatter<W>) -> fmt::Result {
        match self.0 {
            Outcome::Declared(number) => write!(f, "declared {number}"),
            Outcome::Opened(number) => write!(f, "opened {number}"),
            Outcome::Begun(number) => write!(f, "slip {number}"),
            Outcome::Settled(number) => write!(f, "settled {number}"),
            Outcome::Done => write!(f, "done"),
            Outcome::Refused(fault) => write!(f, "{fault}"),
        }
    }
}

impl fmt::Display for Shown<Counts> {
    fn fmt<W: fmt::Write>(&self, f: &mut fmt::Formatter<W>) -> fmt::Result {
        let counts = self.0;
        write!(
            f,
            "commodities {} accounts {} lots {} transactions {} rows {} next {}",
            counts.commodities,
            counts.accounts,
            counts.lots,
            counts.transactions,
            counts.rows,
            counts.next
        )
    }
}

impl fmt::Display for Shown<Result<i64, Fault>> {
    fn fmt<W: fmt::Write>(&self, f: &mut fmt::Formatter<W>) -> fmt::Result {
        match self.0 {
            Ok(hundredths) => write!(f, "{hundredths}"),
            Err(fault) => write!(f, "{fault}"),
        }
    }
}

// Units, account, commodity, then cost with its commodity and lot date as in braces.
impl fmt::Display for Shown<LotRow> {
    fn fmt<W: fmt::Write>(&self, f: &mut fmt::Formatter<W>) -> fmt::Result {
        let lot = self.0;
        write!(
            f,
            "account {} commodity {} units {} cost {} of {} date {} serial {}",
            lot.key.account,
            lot.key.commodity,
            lot.units,
            lot.key.cost.number,
            lot.key.cost.commodity,
            lot.key.date,
            lot.serial
        )
    }
}

impl fmt::Display for Shown<Result<LotRow, Fault>> {
    fn fmt<W: fmt::Write>(&self, f: &mut fmt::Formatter<W>) -> fmt::Result {
        match self.0 {
            Ok(lot) => write!(f, "{}", Shown(lot)),
            Err(fault) => write!(f, "{fault}"),
        }
    }
}
