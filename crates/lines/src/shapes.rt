// The parts that braces have, before any of them is read.
use fields::field::Field;

// The two words of a cost.
#[derive(Clone, Copy)]
pub(crate) struct Words<'a> {
    pub(crate) number: Field<'a>,
    pub(crate) commodity: Field<'a>,
}

#[derive(Clone, Copy)]
pub(crate) struct Shape<'a> {
    pub(crate) cost: Option<Words<'a>>,
    pub(crate) date: Option<Field<'a>>,
}
