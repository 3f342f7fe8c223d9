// What stands between a posting's braces.
ghost use Rattle.std.specs.Prelude.{◌≡◌, ◌+◌, ◌^◌, ◌<◌, ◌≤◌, length, MatchOption};
ghost use Rattle.std.specs.Option.{option_map};
ghost use Rattle.fields.specs.Results.{map_ok};
ghost use Rattle.fields.specs.Spots.{seen};
ghost use Rattle.lines.specs.Said.{cost_said, braces_said};
ghost use Rattle.lines.specs.Braces.{separates, before_separator, is_word, two_words, word_at, parts_cut, shape, cost_in, inside, shaped};
ghost use Rattle.lines.specs.Shapes.{words_seen, shape_seen};

use crate::directive::{Braces, Cost};
use crate::fault::LineFault;
use crate::shapes::{Shape, Words};
use byte_text::{ByteClass, after, all_of, byte_at, front, run_of};
use fields::date::read_date;
use fields::field::Field;
use fields::name::read_commodity_name;
use fields::number::read_number;

// A part of what stands between braces, at a place that leaves room for the places of its own parts.
#[derive(Clone, Copy)]
pub(crate) struct Part<'a> {
    pub(crate) field: Field<'a>,
    ghost near: { field.place < 2 ^ 63 },
}

// Whether a comma stands first, and a space behind it.
fn opens_separator(text: &[u8]) -> bool
    ensures { result ≡ separates text.now 0 }
{
    matches!(text, [b',', b' ', ..])
}

// How many bytes stand before the first comma with a space behind it, if there is one.
fn separator(text: &[u8]) -> Option<usize>
    ensures { MatchOption result (before_separator text.now ≡ length text.now) (λ n. (n ≡ before_separator text.now) × (n < length text.now)) }
{
    // no `windows(2)`: tried, and what it says of its pairs did not lead to the definition
    (0..text.len()).find(|n| opens_separator(after(text, *n)))
}

fn is_one_word(text: &[u8]) -> bool
    ensures { result ≡ is_word text.now }
{
    !text.is_empty() && all_of(ByteClass::Except(b' '), text)
}

// The two words of a cost.
#[tactic(auto, unfolding(crate::specs::Braces::two_words))]
fn split_words<'a>(part: Part<'a>) -> Option<Words<'a>>
    ensures { option_map words_seen result ≡ two_words (seen part.entry.field) }
{
    let Field { text, place } = part.field;
    let n = run_of(ByteClass::Except(b' '), text);
    let start = n + run_of(ByteClass::Space, after(text, n));
    let commodity = Field {
        text: after(text, start),
        place: place + start,
    };
    if n < 1 || !is_one_word(commodity.text) {
        return None;
    }
    Some(Words {
        number: Field {
            text: front(text, n),
            place,
        },
        commodity,
    })
}

// A date's part has no space in it.
fn one_word<'a>(part: Field<'a>) -> Option<Field<'a>>
    ensures { option_map seen result ≡ word_at (seen part.entry) }
{
    is_one_word(part.text).then_some(part)
}

// The parts before and behind the first comma with a space behind it, if there is one.
fn split_parts<'a>(inside: Part<'a>) -> Option<(Part<'a>, Field<'a>)>
    ensures { option_map (λ p. (seen p.0.field, seen p.1)) result ≡ parts_cut (seen inside.entry.field) }
{
    let Field { text, place } = inside.field;
    let n = separator(text)?;
    let cost = Part {
        field: Field {
            text: front(text, n),
            place,
        },
    };
    let date = Field {
        text: after(text, n + 2),
        place: place + (n + 2),
    };
    Some((cost, date))
}

#[tactic(auto, unfolding(crate::specs::Braces::shape, crate::specs::Braces::two_parts, crate::specs::Braces::one_part))]
fn shape_of<'a>(inside: Part<'a>) -> Option<Shape<'a>>
    ensures { option_map shape_seen result ≡ shape (seen inside.entry.field) }
{
    if inside.field.text.is_empty() {
        return Some(Shape {
            cost: None,
            date: None,
        });
    }
    if let Some((cost, date)) = split_parts(inside) {
        return Some(Shape {
            cost: Some(split_words(cost)?),
            date: Some(one_word(date)?),
        });
    }
    if let Some(date) = one_word(inside.field) {
        return Some(Shape {
            cost: None,
            date: Some(date),
        });
    }
    Some(Shape {
        cost: Some(split_words(inside)?),
        date: None,
    })
}

#[tactic(auto, unfolding(crate::specs::Braces::cost_in))]
fn read_cost<'a>(words: Words<'a>, brace: usize) -> Result<Cost<'a>, LineFault>
    ensures { map_ok cost_said result ≡ cost_in brace (words_seen words.entry) }
{
    let amount = read_number(words.number)?;
    if byte_at(words.number.text, 0) == b'-' {
        return Err(LineFault::Braces(brace));
    }
    let commodity = read_commodity_name(words.commodity)?;
    Ok(Cost {
        number: words.number,
        amount,
        commodity,
    })
}

// The parts from left to right.
#[tactic(auto, unfolding(crate::specs::Braces::date_in))]
fn read_shape<'a>(shape: Shape<'a>, brace: usize) -> Result<Braces<'a>, LineFault>
    ensures { map_ok braces_said result ≡ shaped brace (shape_seen shape.entry) }
{
    let cost = shape.cost.map(|words| read_cost(words, brace)).transpose()?;
    let date = shape.date.map(read_date).transpose()?;
    Ok(Braces { cost, date })
}

// The text between braces; its shape comes before its fields.
#[tactic(auto, unfolding(crate::specs::Braces::inside))]
pub(crate) fn read_inside<'a>(text: Part<'a>, brace: usize) -> Result<Braces<'a>, LineFault>
    ensures { map_ok braces_said result ≡ inside brace (seen text.entry.field) }
{
    let shape = shape_of(text).ok_or(LineFault::Braces(brace))?;
    read_shape(shape, brace)
}
