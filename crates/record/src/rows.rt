// The rows of the record as values.
ghost use Rattle.std.specs.Prelude.{◌≡◌};
ghost use Rattle.record.specs.Layout.{kind_number, lot_of};

use values::flag::Flag;

// The lot of a purchase or a draw, as its row states it.
#[derive(Clone, Copy, PartialEq, Eq, Debug, Default)]
pub struct LotFields {
    pub cost: u32,
    pub acquired: u32,
    pub serial: u32,
    pub currency: u8,
}

// What a row stands for. Only purchases and draws have a lot.
#[derive(Clone, Copy, PartialEq, Eq, Debug)]
pub enum RowKind {
    Plain,
    Purchase(LotFields),
    Draw(LotFields),
    FilledBlank,
}

// Units and cost are in hundredths, dates are their numbers.
#[derive(Clone, Copy, PartialEq, Eq, Debug)]
pub struct Row {
    pub line: u32,
    pub transaction: u32,
    pub date: u32,
    pub account: u16,
    pub commodity: u8,
    pub kind: RowKind,
    pub units: i32,
    pub flag: Flag,
}

impl RowKind {
    // The number that stands for it in a row.
    pub fn number(self) -> u8
        ensures { result ≡ kind_number self }
    {
        match self {
            RowKind::Plain => 1,
            RowKind::Purchase(_) => 2,
            RowKind::Draw(_) => 3,
            RowKind::FilledBlank => 4,
        }
    }

    // The lot that its row states: zeros where there is none.
    pub fn lot(self) -> LotFields
        ensures { result ≡ lot_of self }
    {
        match self {
            RowKind::Purchase(lot) | RowKind::Draw(lot) => lot,
            RowKind::Plain | RowKind::FilledBlank => LotFields::default(),
        }
    }
}
