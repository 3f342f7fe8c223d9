// How programs print figures, names, and what a line says.
#![tactic(auto)]

ghost use Rattle.std.specs.Prelude.{Some};
ghost use Rattle.lines.specs.Grammar.{flag_sign, method_name};
ghost use Rattle.listing.specs.Figures.{hundredths_text, day_text};
ghost use Rattle.listing.specs.Lines.{cost_text, braces_text, units_text, posting_text, directive_text};

pub mod figures;
pub mod line;

use crate::figures::{Day, Hundredths, write_bytes};
use crate::line::{cost_spec_of, line_of, position_of, posting_of, quantity_of};
use fields::field::Field;
use lines::directive::{Braces, Cost, Directive, Method, Posting, Units};
use std::fmt;
use values::amount::Amount;
use values::date::Date;
use values::flag::Flag;

// A part of a line, or the whole of it, as it is listed. A type around the others, since only a type of one's own can be given
// a `Display`, and how programs print is no matter of the crates that read.
#[derive(Clone, Copy)]
pub struct Listed<T>(pub T);

impl fmt::Display for Listed<&[u8]> {
    ghost output = { λ l. Some l.0.now };

    fn fmt<W: fmt::Write>(&self, f: &mut fmt::Formatter<W>) -> fmt::Result {
        // what is listed is ASCII, as all that a line may hold
        write_bytes(f, self.0)
    }
}

// With two decimals.
impl fmt::Display for Listed<Amount> {
    ghost output = { λ l. Some (hundredths_text l.0.hundredths) };

    fn fmt<W: fmt::Write>(&self, f: &mut fmt::Formatter<W>) -> fmt::Result {
        write!(f, "{}", Hundredths(i64::from(self.0.hundredths())))
    }
}

// As YYYY-MM-DD.
impl fmt::Display for Listed<Date> {
    ghost output = { λ l. Some (day_text l.0.number) };

    fn fmt<W: fmt::Write>(&self, f: &mut fmt::Formatter<W>) -> fmt::Result {
        write!(f, "{}", Day(self.0.number()))
    }
}

impl fmt::Display for Listed<Field<'_>> {
    ghost output = { λ l. Some (l.0.text.now) };

    fn fmt<W: fmt::Write>(&self, f: &mut fmt::Formatter<W>) -> fmt::Result {
        write!(f, "{}", Listed(self.0.text))
    }
}

impl fmt::Display for Listed<Method> {
    ghost output = { λ l. Some (method_name l.0) };

    fn fmt<W: fmt::Write>(&self, f: &mut fmt::Formatter<W>) -> fmt::Result {
        f.write_str(match self.0 {
            Method::Strict => "STRICT",
            Method::Fifo => "FIFO",
            Method::Lifo => "LIFO",
        })
    }
}

impl fmt::Display for Listed<Flag> {
    ghost output = { λ l. Some (flag_sign l.0) };

    fn fmt<W: fmt::Write>(&self, f: &mut fmt::Formatter<W>) -> fmt::Result {
        f.write_char(match self.0 {
            Flag::Complete => '*',
            Flag::Incomplete => '!',
        })
    }
}

impl fmt::Display for Listed<Cost<'_>> {
    ghost output = { λ l. Some (cost_text l.0) };

    fn fmt<W: fmt::Write>(&self, f: &mut fmt::Formatter<W>) -> fmt::Result {
        write!(f, "{}", quantity_of(self.0))
    }
}

impl fmt::Display for Listed<Braces<'_>> {
    ghost output = { λ l. Some (braces_text l.0) };

    fn fmt<W: fmt::Write>(&self, f: &mut fmt::Formatter<W>) -> fmt::Result {
        write!(f, "{}", cost_spec_of(self.0))
    }
}

impl fmt::Display for Listed<Units<'_>> {
    ghost output = { λ l. Some (units_text l.0) };

    fn fmt<W: fmt::Write>(&self, f: &mut fmt::Formatter<W>) -> fmt::Result {
        write!(f, "{}", position_of(self.0))
    }
}

impl fmt::Display for Listed<Posting<'_>> {
    ghost output = { λ l. Some (posting_text l.0) };

    fn fmt<W: fmt::Write>(&self, f: &mut fmt::Formatter<W>) -> fmt::Result {
        write!(f, "{}", posting_of(self.0))
    }
}

impl fmt::Display for Listed<Directive<'_>> {
    ghost output = { λ l. Some (directive_text l.0) };

    fn fmt<W: fmt::Write>(&self, f: &mut fmt::Formatter<W>) -> fmt::Result {
        write!(f, "{}", line_of(self.0))
    }
}
