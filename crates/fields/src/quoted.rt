// Quoted texts: 0 to 40 bytes between quotes, without a quote or a backslash.
ghost use Rattle.std.specs.Prelude.{◌≡◌, ℕ, ◌+◌, ◌≤◌, List, length, IfOk, MatchResult};
ghost use Rattle.fields.specs.Denotes.{Quotes};
ghost use Rattle.fields.specs.Quoted.{ends_field, quoted_length, quoted_at};
ghost use Rattle.fields.specs.Results.{map_ok};
ghost use Rattle.fields.specs.Spots.{seen};

use crate::fault::FieldFault;
use crate::field::Field;
use byte_text::{ByteClass, after, byte_at, front, run_of};

// Whether a field ends here: with the line or at a space.
pub fn ends_field(rest: &[u8]) -> bool
    ensures { result ≡ ends_field rest.now }
{
    matches!(rest, [] | [b' ', ..])
}

// How many bytes stand between the quotes that open a text, if they do and a space or nothing follows.
fn quoted_length(text: &[u8]) -> Option<usize>
    ensures { result ≡ quoted_length text.now }
{
    // first, so that a text that opens with no quote costs nothing
    if byte_at(text, 0) != b'"' {
        return None;
    }
    let n = run_of(ByteClass::QuotedText, after(text, 1));
    let is_quoted = n <= 40 && byte_at(text, n + 1) == b'"' && ends_field(after(text, n + 2));
    is_quoted.then_some(n)
}

// The text between the quotes that open the rest of a line, at the place of the first quote.
pub fn read_quoted<'a>(rest: Field<'a>) -> Result<Field<'a>, FieldFault>
    ensures value { map_ok seen result ≡ quoted_at (seen rest.entry) }
    ensures exactly { MatchResult result (λ f. (more : List ℕ) × Quotes rest.entry.text.now f.text.now more) (λ _. (content : List ℕ) (more : List ℕ) → Quotes rest.entry.text.now content more → ⊥) }
    ensures within { IfOk result (λ f. length f.text.now + 2 ≤ length rest.entry.text.now) }
{
    let n = quoted_length(rest.text).ok_or(FieldFault::QuotedText(rest.place))?;
    Ok(Field {
        text: front(after(rest.text, 1), n),
        place: rest.place,
    })
}
