// The header as a value: what it says besides the rows. Its offsets follow from how many rows there are.
#[derive(Clone, Copy, PartialEq, Eq, Debug)]
pub struct Header {
    pub policy: u16,
    pub transactions: u32,
    pub next: u32,
}
