// Faults of lines. A fault of a field comes up to its line unchanged.
ghost use Rattle.std.specs.Prelude.{◌≡◌};
ghost use Rattle.lines.specs.Faults.{fault_on};
ghost use Rattle.lines.specs.declared.fault.LineFault.TheVariants as line;

use fields::fault::FieldFault;
use refusal::{Fault, Refusal};

// What is wrong with a line, and the place in it where that starts; `Braces` holds the place of the brace itself.
#[derive(Clone, Copy, Debug, PartialEq, Eq)]
pub enum LineFault {
    WrongByte(usize),
    Form(usize),
    Field(FieldFault),
    Braces(usize),
}

impl From<FieldFault> for LineFault {
    ghost from_gives = { λ f r. r ≡ line.Field f };

    fn from(f: FieldFault) -> LineFault {
        LineFault::Field(f)
    }
}

impl LineFault {
    // The fault as it is reported of a line.
    pub fn on(self, line: u32) -> Fault
        ensures { result ≡ fault_on line self }
    {
        let (refusal, place) = match self {
            LineFault::WrongByte(place) => (Refusal::WrongByte, place),
            LineFault::Form(place) => (Refusal::UnknownForm, place),
            LineFault::Field(FieldFault::Number(place)) => (Refusal::BadNumber, place),
            LineFault::Field(FieldFault::Date(place)) => (Refusal::BadDate, place),
            LineFault::Field(FieldFault::Commodity(place)) => (Refusal::BadCommodityName, place),
            LineFault::Field(FieldFault::Account(place)) => (Refusal::BadAccountName, place),
            LineFault::Field(FieldFault::QuotedText(place)) => (Refusal::BadQuotedText, place),
            LineFault::Braces(place) => (Refusal::BadBraces, place),
        };
        Fault {
            refusal,
            line,
            place,
        }
    }
}
