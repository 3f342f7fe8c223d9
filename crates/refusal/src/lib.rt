// Why a call is refused: the closed list of refusals, each with its number and its layer.
#![tactic(auto)]

ghost use Rattle.std.specs.Prelude.{◌≡◌};
ghost use Rattle.refusal.specs.Table.{number_of, layer_of, name_of, Alone};
ghost use Rattle.refusal.specs.Faults.{fault_at};

use std::fmt;

// The part of the ledger that turned a call down.
#[derive(Clone, Copy, PartialEq, Eq, Debug)]
pub enum Layer {
    Host,
    Text,
    Books,
    Lots,
    Weights,
    Buffers,
}

// In the order of the list: of several that a call meets, the one higher up comes back (docs/REFUSALS.md).
#[derive(Clone, Copy, PartialEq, Eq, PartialOrd, Ord, Debug)]
pub enum Refusal {
    DraftUnderWay = 1,
    NoSuchDraft = 2,
    NothingThere = 3,
    WrongByte = 4,
    UnknownForm = 5,
    BadDate = 6,
    BadAccountName = 7,
    BadCommodityName = 8,
    BadNumber = 9,
    BadQuotedText = 10,
    BadBraces = 11,
    GoesBack = 12,
    CommodityDeclaredAlready = 13,
    CommodityNotDeclared = 14,
    AccountOpenedBefore = 15,
    AccountNotOpen = 16,
    NotTheOwnCommodity = 17,
    TooManyPostings = 18,
    SecondBlank = 19,
    BracesWithoutUse = 20,
    LotTooLarge = 21,
    TooFewUnits = 22,
    NotSettledByPolicy = 23,
    TooManyLots = 24,
    NotBalanced = 25,
    BlankCannotBeFilled = 26,
    BalanceTooLarge = 27,
    BalanceDiffers = 28,
    AccountNotEmpty = 29,
    BooksFull = 30,
    RecordTooShort = 31,
    TooManyRows = 32,
}

// A refusal as it is reported. The line is the source number of the directive or posting at fault;
// the place is where in that line, from 1, the field at fault starts. Both are 0 where they say nothing.
#[derive(Clone, Copy, PartialEq, Eq, Debug)]
pub struct Fault {
    pub refusal: Refusal,
    pub line: u32,
    pub place: usize,
}

impl Refusal {
    // The number that a user sees.
    #[tactic(auto, using(crate::proofs::Numbers::alone))]
    pub fn number(self) -> u8
        ensures value { result ≡ number_of self }
        ensures alone { Alone self }
    {
        self as u8
    }

    // The fault that it is in a line of this number, where no place in the line is at fault.
    pub fn on(self, line: u32) -> Fault
        ensures { result ≡ fault_at line self }
    {
        Fault {
            refusal: self,
            line,
            place: 0,
        }
    }

    pub fn layer(self) -> Layer
        ensures { result ≡ layer_of self }
    {
        match self {
            Refusal::DraftUnderWay | Refusal::NoSuchDraft | Refusal::NothingThere => Layer::Host,
            Refusal::WrongByte
            | Refusal::UnknownForm
            | Refusal::BadDate
            | Refusal::BadAccountName
            | Refusal::BadCommodityName
            | Refusal::BadNumber
            | Refusal::BadQuotedText
            | Refusal::BadBraces => Layer::Text,
            Refusal::LotTooLarge
            | Refusal::TooFewUnits
            | Refusal::NotSettledByPolicy
            | Refusal::TooManyLots => Layer::Lots,
            Refusal::NotBalanced | Refusal::BlankCannotBeFilled | Refusal::BalanceTooLarge =>
                Layer::Weights,
            Refusal::RecordTooShort | Refusal::TooManyRows => Layer::Buffers,
            _ => Layer::Books,
        }
    }
}

impl Layer {
    // The layer's name as it is printed.
    pub fn name(self) -> &'static str
        ensures { result.now ≡ name_of self }
    {
        match self {
            Layer::Host => "host",
            Layer::Text => "text",
            Layer::Books => "books",
            Layer::Lots => "lots",
            Layer::Weights => "weights",
            Layer::Buffers => "buffers",
        }
    }
}

impl fmt::Display for Layer {
    ghost use Rattle.std.specs.Prelude.{Some};
    ghost use Rattle.refusal.specs.Table.{name_of};

    ghost output = { λ l. Some (name_of l) };

    fn fmt<W: fmt::Write>(&self, f: &mut fmt::Formatter<W>) -> fmt::Result {
        f.write_str(self.name())
    }
}

// A refusal as it is reported.
impl fmt::Display for Fault {
    ghost use Rattle.std.specs.Prelude.{Some};
    ghost use Rattle.refusal.specs.Printed.{fault_text};

    ghost output = { λ f. Some (fault_text f) };

    fn fmt<W: fmt::Write>(&self, f: &mut fmt::Formatter<W>) -> fmt::Result {
        write!(
            f,
            "refused {} line {} place {} layer {}",
            self.refusal.number(),
            self.line,
            self.place,
            self.refusal.layer()
        )
    }
}
