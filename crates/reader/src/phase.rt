// Where the reader is between the lines of a journal. The slip of a draft under way is no part of it: it passes from step to step by value.
#[derive(Clone, Copy, PartialEq, Eq, Debug)]
pub enum Phase {
    Outside,
    InTransaction,
    Skipping,
}
