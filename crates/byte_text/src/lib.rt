// Parts of a text and classes of its bytes. Every function answers at every index and on any bytes.
#![tactic(auto)]

ghost use Rattle.std.specs.Prelude.{◌≡◌, ◌-◌, ◌≤◌, min, length, take, drop, slice_index};
ghost use Rattle.byte_text.specs.Classes.{in_class, run_length, all_in};

// The classes of bytes that the journal's grammar speaks of.
#[derive(Clone, Copy, Debug, PartialEq, Eq)]
pub enum ByteClass {
    Printable,
    Space,
    Except(u8),
    CommodityName,
    AccountPart,
    QuotedText,
}

impl ByteClass {
    pub fn has(self, b: u8) -> bool
        ensures { result ≡ in_class self b }
    {
        match self {
            ByteClass::Printable => matches!(b, b' '..=b'~'),
            ByteClass::Space => b == b' ',
            ByteClass::Except(stop) => b != stop,
            ByteClass::CommodityName => b.is_ascii_uppercase() || b.is_ascii_digit(),
            ByteClass::AccountPart => b.is_ascii_alphanumeric() || b == b'-',
            ByteClass::QuotedText => !matches!(b, b'"' | b'\\'),
        }
    }
}

// The first n bytes, or all.
pub fn front(text: &[u8], n: usize) -> &[u8]
    ensures value { result.now ≡ take n text.now }
    ensures len { length result.now ≡ min n (length text.now) }
{
    text.get(..n).unwrap_or(text)
}

// What stands after the first n bytes.
pub fn after(text: &[u8], n: usize) -> &[u8]
    ensures value { result.now ≡ drop n text.now }
    ensures len { length result.now ≡ length text.now - n }
{
    text.get(n..).unwrap_or(&[])
}

// The byte at an index, 0 past the end.
pub fn byte_at(text: &[u8], i: usize) -> u8
    ensures { result ≡ slice_index text.now i }
{
    text.get(i).copied().unwrap_or(0)
}

// How many bytes of a class stand first.
pub fn run_of(class: ByteClass, text: &[u8]) -> usize
    ensures value { result ≡ run_length class text.now }
    ensures within { result ≤ length text.now }
{
    text.iter().take_while(|b| class.has(**b)).count()
}

// Whether all bytes are of a class.
pub fn all_of(class: ByteClass, text: &[u8]) -> bool
    ensures { result ≡ all_in class text.now }
{
    text.iter().all(|b| class.has(*b))
}
