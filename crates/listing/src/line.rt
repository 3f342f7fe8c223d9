// Lines as they are listed: of figures and texts, whatever they are. What a line of a journal says is listed as one of these.
ghost use Rattle.std.specs.Prelude.{◌≡◌, Some};
ghost use Rattle.listing.specs.Lines.{quantity_text, cost_spec_text, position_text, line_text, quantity_of, cost_spec_of, position_of, posting_of, line_of};

use crate::Listed;
use crate::figures::{Day, Hundredths};
use lines::directive::{Braces, Cost, Directive, Method, Posting, Units};
use std::fmt;
use values::flag::Flag;

// So many hundredths of a commodity.
#[derive(Clone, Copy)]
pub struct Quantity<'a> {
    pub hundredths: i32,
    pub commodity: &'a [u8],
}

// What braces say of a lot.
#[derive(Clone, Copy)]
pub struct CostSpec<'a> {
    pub cost: Option<Quantity<'a>>,
    pub date: Option<u32>,
}

// Units, with braces where they are held at a cost.
#[derive(Clone, Copy)]
pub struct Position<'a> {
    pub units: Quantity<'a>,
    pub cost: Option<CostSpec<'a>>,
}

#[derive(Clone, Copy)]
pub enum Line<'a> {
    BookingMethod(Method),
    Commodity {
        date: u32,
        name: &'a [u8],
    },
    Open {
        date: u32,
        account: &'a [u8],
        commodity: Option<&'a [u8]>,
    },
    Close {
        date: u32,
        account: &'a [u8],
    },
    Balance {
        date: u32,
        account: &'a [u8],
        balance: Quantity<'a>,
    },
    Transaction {
        date: u32,
        flag: Flag,
        text: &'a [u8],
    },
    Posting {
        account: &'a [u8],
        position: Option<Position<'a>>,
    },
}

impl fmt::Display for Quantity<'_> {
    ghost output = { λ q. Some (quantity_text q) };

    fn fmt<W: fmt::Write>(&self, f: &mut fmt::Formatter<W>) -> fmt::Result {
        let figure = Hundredths(i64::from(self.hundredths));
        write!(f, "{} {}", figure, Listed(self.commodity))
    }
}

impl fmt::Display for CostSpec<'_> {
    ghost output = { λ c. Some (cost_spec_text c) };

    fn fmt<W: fmt::Write>(&self, f: &mut fmt::Formatter<W>) -> fmt::Result {
        match (self.cost, self.date) {
            (None, None) => f.write_str("{}"),
            (Some(cost), None) => write!(f, "{{{}}}", cost),
            (None, Some(date)) => write!(f, "{{{}}}", Day(date)),
            (Some(cost), Some(date)) => write!(f, "{{{}, {}}}", cost, Day(date)),
        }
    }
}

impl fmt::Display for Position<'_> {
    ghost output = { λ p. Some (position_text p) };

    fn fmt<W: fmt::Write>(&self, f: &mut fmt::Formatter<W>) -> fmt::Result {
        write!(f, "{}", self.units)?;
        if let Some(cost) = self.cost {
            write!(f, " {}", cost)?;
        }
        Ok(())
    }
}

// Its kind and its fields.
impl fmt::Display for Line<'_> {
    ghost output = { λ l. Some (line_text l) };

    fn fmt<W: fmt::Write>(&self, f: &mut fmt::Formatter<W>) -> fmt::Result {
        match *self {
            Line::BookingMethod(method) => { write!(f, "option booking_method {}", Listed(method)) }
            Line::Commodity { date, name } => {
                write!(f, "commodity {} {}", Day(date), Listed(name))
            }
            Line::Open {
                date,
                account,
                commodity,
            } => {
                write!(f, "open {} {}", Day(date), Listed(account))?;
                if let Some(own) = commodity {
                    write!(f, " {}", Listed(own))?;
                }
                Ok(())
            }
            Line::Close { date, account } => {
                write!(f, "close {} {}", Day(date), Listed(account))
            }
            Line::Balance {
                date,
                account,
                balance,
            } => write!(f, "balance {} {} {}", Day(date), Listed(account), balance),
            Line::Transaction { date, flag, text } => write!(
                f,
                "transaction {} {} \"{}\"",
                Day(date),
                Listed(flag),
                Listed(text)
            ),
            Line::Posting { account, position } => {
                write!(f, "posting {}", Listed(account))?;
                if let Some(position) = position {
                    write!(f, " {}", position)?;
                }
                Ok(())
            }
        }
    }
}

pub(crate) fn quantity_of<'a>(cost: Cost<'a>) -> Quantity<'a>
    ensures { result ≡ quantity_of cost.entry }
{
    Quantity {
        hundredths: cost.amount.hundredths(),
        commodity: cost.commodity.text,
    }
}

pub(crate) fn cost_spec_of<'a>(braces: Braces<'a>) -> CostSpec<'a>
    ensures { result ≡ cost_spec_of braces.entry }
{
    CostSpec {
        cost: braces.cost.map(quantity_of),
        date: braces.date.map(|date| date.number()),
    }
}

pub(crate) fn position_of<'a>(units: Units<'a>) -> Position<'a>
    ensures { result ≡ position_of units.entry }
{
    Position {
        units: Quantity {
            hundredths: units.amount.hundredths(),
            commodity: units.commodity.text,
        },
        cost: units.braces.map(cost_spec_of),
    }
}

pub(crate) fn posting_of<'a>(posting: Posting<'a>) -> Line<'a>
    ensures { result ≡ posting_of posting.entry }
{
    Line::Posting {
        account: posting.account.text,
        position: posting.units.map(position_of),
    }
}

pub(crate) fn line_of<'a>(directive: Directive<'a>) -> Line<'a>
    ensures { result ≡ line_of directive.entry }
{
    match directive {
        Directive::BookingMethod(method) => Line::BookingMethod(method),
        Directive::Commodity { date, name } => Line::Commodity {
            date: date.number(),
            name: name.text,
        },
        Directive::Open {
            date,
            account,
            commodity,
        } => Line::Open {
            date: date.number(),
            account: account.text,
            commodity: commodity.map(|own| own.text),
        },
        Directive::Close { date, account } => Line::Close {
            date: date.number(),
            account: account.text,
        },
        Directive::Balance {
            date,
            account,
            amount,
            commodity,
            ..
        } => Line::Balance {
            date: date.number(),
            account: account.text,
            balance: Quantity {
                hundredths: amount.hundredths(),
                commodity: commodity.text,
            },
        },
        Directive::Transaction { date, flag, text } => Line::Transaction {
            date: date.number(),
            flag,
            text: text.text,
        },
        Directive::Posting(posting) => posting_of(posting),
    }
}
