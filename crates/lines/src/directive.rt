// What a line says. Names, numbers and the parts of braces are parts of the journal, each with its place.
use fields::field::Field;
use values::amount::Amount;
use values::date::Date;
use values::flag::Flag;

// The booking method that the option line names.
#[derive(Clone, Copy, Debug, PartialEq, Eq)]
pub enum Method {
    Strict,
    Fifo,
    Lifo,
}

// The unit cost in a posting's braces.
#[derive(Clone, Copy)]
pub struct Cost<'a> {
    pub number: Field<'a>,
    pub amount: Amount,
    pub commodity: Field<'a>,
}

// What a posting's braces say of the lots that are meant.
#[derive(Clone, Copy)]
pub struct Braces<'a> {
    pub cost: Option<Cost<'a>>,
    pub date: Option<Date>,
}

// A posting's amount, with braces where it speaks of lots.
#[derive(Clone, Copy)]
pub struct Units<'a> {
    pub number: Field<'a>,
    pub amount: Amount,
    pub commodity: Field<'a>,
    pub braces: Option<Braces<'a>>,
}

// A posting; one without units is blank, to be filled when its transaction is settled.
#[derive(Clone, Copy)]
pub struct Posting<'a> {
    pub account: Field<'a>,
    pub units: Option<Units<'a>>,
}

#[derive(Clone, Copy)]
pub enum Directive<'a> {
    BookingMethod(Method),
    Commodity {
        date: Date,
        name: Field<'a>,
    },
    Open {
        date: Date,
        account: Field<'a>,
        commodity: Option<Field<'a>>,
    },
    Close {
        date: Date,
        account: Field<'a>,
    },
    Balance {
        date: Date,
        account: Field<'a>,
        number: Field<'a>,
        amount: Amount,
        commodity: Field<'a>,
    },
    Transaction {
        date: Date,
        flag: Flag,
        text: Field<'a>,
    },
    Posting(Posting<'a>),
}
