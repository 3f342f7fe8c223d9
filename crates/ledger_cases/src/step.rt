// What a row asks for: a call, a question, many transactions at once, or another record.
use crate::calls::call_of;
use crate::seen::Change;
use crate::words::Request;
use books::call::Call;

// Of the ledger or of its record. Offsets and rows are those of the record.
#[derive(Clone, Copy)]
pub enum Question {
    Holding { account: u16, commodity: u8 },
    PlainBalance { account: u16, commodity: u8 },
    Counts,
    Lot { serial: u32 },
    Header,
    Row { number: usize },
    Bytes { from: usize, to: usize },
}

// So many transactions, each of sixteen plain postings of 0.
#[derive(Clone, Copy)]
pub struct Filling<'a> {
    pub times: u32,
    pub date: u32,
    pub account: &'a [u8],
    pub commodity: &'a [u8],
}

#[derive(Clone, Copy)]
pub enum Step<'a> {
    Call(Call<'a>),
    Question(Question),
    Filling(Filling<'a>),
    // A record of so many bytes, lent from then on.
    Record { length: usize },
}

fn question_of(request: &Request<'_>) -> Option<Question> {
    match (request.verb, request.words.as_slice()) {
        ("holding", [account, commodity]) => Some(Question::Holding {
            account: account.text.parse::<u16>().ok()?,
            commodity: commodity.text.parse::<u8>().ok()?,
        }),
        ("plain", [account, commodity]) => Some(Question::PlainBalance {
            account: account.text.parse::<u16>().ok()?,
            commodity: commodity.text.parse::<u8>().ok()?,
        }),
        ("counts", []) => Some(Question::Counts),
        ("lot", [serial]) => Some(Question::Lot {
            serial: serial.text.parse::<u32>().ok()?,
        }),
        ("written", []) => Some(Question::Header),
        ("row", [number]) => Some(Question::Row {
            number: number.text.parse::<usize>().ok()?,
        }),
        ("bytes", [from, to]) => Some(Question::Bytes {
            from: from.text.parse::<usize>().ok()?,
            to: to.text.parse::<usize>().ok()?,
        }),
        _ => None,
    }
}

fn filling_of<'a>(request: &'a Request<'_>) -> Option<Filling<'a>> {
    let ("fill", [times, date, account, commodity]) = (request.verb, request.words.as_slice())
    else {
        return None;
    };
    Some(Filling {
        times: times.text.parse::<u32>().ok()?,
        date: date.text.parse::<u32>().ok()?,
        account: account.name.as_slice(),
        commodity: commodity.name.as_slice(),
    })
}

fn record_of<'a>(request: &Request<'_>) -> Option<Step<'a>> {
    let ("record", [length]) = (request.verb, request.words.as_slice()) else {
        return None;
    };
    Some(Step::Record {
        length: length.text.parse::<usize>().ok()?,
    })
}

impl<'a> Step<'a> {
    // None where the row cannot be read.
    pub(crate) fn of(request: &'a Request<'_>) -> Option<Step<'a>> {
        if let Some(call) = call_of(request) {
            return Some(Step::Call(call));
        }
        if request.inner().is_some() {
            return None;
        }
        if let Some(question) = question_of(request) {
            return Some(Step::Question(question));
        }
        match filling_of(request) {
            Some(filling) => Some(Step::Filling(filling)),
            None => record_of(request),
        }
    }

    // What it may change where it is accepted.
    pub(crate) fn change(&self) -> Change {
        match self {
            Step::Call(Call::Declare { .. } | Call::Open { .. }) => Change::Names,
            Step::Call(Call::WriteHeader { .. }) => Change::Header,
            Step::Call(Call::Settle { .. }) | Step::Filling(_) => Change::Bookings,
            Step::Record { .. } => Change::Record,
            _ => Change::Nothing,
        }
    }
}
