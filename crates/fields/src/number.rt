// Numbers: an optional minus, 1 to 6 digits, and possibly a point with 1 or 2 digits.
ghost use Rattle.std.specs.Prelude.{◌≡◌, ◌<◌, ℤ, IfSome, MatchResult};
ghost use Rattle.values.specs.Amounts.{InRange};
ghost use Rattle.fields.specs.Denotes.{Denotes};
ghost use Rattle.fields.specs.Numbers.{whole, fraction, unsigned, number, number_at};
ghost use Rattle.fields.specs.Results.{map_ok};

use crate::digits::read_digits;
use crate::fault::FieldFault;
use crate::field::Field;
use byte_text::{ByteClass, after, run_of};
use values::amount::Amount;

// 1 to 6 digits.
fn read_whole(text: &[u8]) -> Option<u32>
    ensures value { result ≡ whole text.now }
    ensures bound { IfSome result (λ n. n < 1000000) }
{
    if (1..=6).contains(&text.len()) {
        read_digits(text)
    } else {
        None
    }
}

// Nothing, or a point with 1 or 2 digits: hundredths.
fn read_fraction(text: &[u8]) -> Option<u32>
    ensures value { result ≡ fraction text.now }
    ensures bound { IfSome result (λ n. n < 100) }
{
    match text.len() {
        0 => Some(0),
        2 => Some(read_digits(after(text, 1))? * 10),
        3 => read_digits(after(text, 1)),
        _ => None,
    }
}

fn read_unsigned(text: &[u8]) -> Option<u32>
    ensures value { result ≡ unsigned text.now }
    ensures bound { IfSome result (λ n. n < 100000000) }
{
    let (front, back) = text.split_at(run_of(ByteClass::Except(b'.'), text));
    let units = read_whole(front)?;
    let hundredths = read_fraction(back)?;
    Some(units * 100 + hundredths)
}

fn read_signed(text: &[u8]) -> Option<i32>
    ensures value { result ≡ number text.now }
    ensures range { IfSome result InRange }
{
    match text {
        [b'-', rest @ ..] => Some(-(read_unsigned(rest)? as i32)),
        _ => Some(read_unsigned(text)? as i32),
    }
}

// The amount that a field writes: the one that its text denotes, if it denotes one.
pub fn read_number(field: Field<'_>) -> Result<Amount, FieldFault>
    ensures value { map_ok (λ a. a.hundredths) result ≡ number_at field.entry.text.now field.entry.place }
    ensures exactly { MatchResult result (λ a. Denotes field.entry.text.now a.hundredths) (λ _. (v : ℤ) → Denotes field.entry.text.now v → ⊥) }
{
    read_signed(field.text)
        .and_then(Amount::new)
        .ok_or(FieldFault::Number(field.place))
}
