// A part of a line, with the place where it starts there, counted from 1.
#[derive(Clone, Copy, Debug, PartialEq, Eq)]
pub struct Field<'a> {
    pub text: &'a [u8],
    pub place: usize,
}
