// What is wrong with a field, and the place in its line where that starts.
#[derive(Clone, Copy, Debug, PartialEq, Eq)]
pub enum FieldFault {
    // No number, or one that is no amount.
    Number(usize),
    // No date of the calendar.
    Date(usize),
    // No name of a commodity.
    Commodity(usize),
    // No name of an account.
    Account(usize),
    QuotedText(usize),
}
