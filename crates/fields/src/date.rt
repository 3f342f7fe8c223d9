// Dates: YYYY-MM-DD.
ghost use Rattle.std.specs.Prelude.{◌≡◌, ℕ, MatchResult};
ghost use Rattle.std.specs.Option.{option_map};
ghost use Rattle.fields.specs.Dates.{date, date_at};
ghost use Rattle.fields.specs.Denotes.{WritesDate};
ghost use Rattle.fields.specs.Results.{map_ok};

use crate::digits::read_digits;
use crate::fault::FieldFault;
use crate::field::Field;
use byte_text::{after, byte_at, front};
use values::date::Date;

fn read_day(text: &[u8]) -> Option<Date>
    ensures { option_map (λ d. d.number) result ≡ date text.now }
{
    if text.len() != 10 || byte_at(text, 4) != b'-' || byte_at(text, 7) != b'-' {
        return None;
    }
    let year = read_digits(front(text, 4))?;
    let month = read_digits(front(after(text, 5), 2))?;
    let day = read_digits(front(after(text, 8), 2))?;
    Date::new(year * 10_000 + month * 100 + day)
}

// The date that a field writes, if it writes one.
pub fn read_date(field: Field<'_>) -> Result<Date, FieldFault>
    ensures value { map_ok (λ d. d.number) result ≡ date_at field.entry.text.now field.entry.place }
    ensures exactly { MatchResult result (λ d. WritesDate field.entry.text.now d.number) (λ _. (n : ℕ) → WritesDate field.entry.text.now n → ⊥) }
{
    read_day(field.text).ok_or(FieldFault::Date(field.place))
}
