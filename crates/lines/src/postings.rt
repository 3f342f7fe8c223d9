// Posting lines.
ghost use Rattle.std.specs.Prelude.{◌≡◌};
ghost use Rattle.std.specs.Option.{option_map};
ghost use Rattle.fields.specs.Results.{map_ok};
ghost use Rattle.lines.specs.Said.{braces_said, units_said, posting_said};
ghost use Rattle.lines.specs.Postings.{braces_from, braces_at, units_at, posting_of};

use crate::braces::{Part, read_inside};
use crate::cursor::Cursor;
use crate::directive::{Braces, Posting, Units};
use crate::fault::LineFault;
use byte_text::{ByteClass, front, run_of};
use fields::field::Field;
use fields::name::{read_account_name, read_commodity_name};
use fields::number::read_number;
use fields::quoted::ends_field;

// Braces, up to the end of the line; the line is read up to the byte behind the opening one.
#[tactic(auto, unfolding(crate::specs::Postings::braces_from))]
fn read_braces<'a>(line: Cursor<'a>) -> Result<Option<Braces<'a>>, LineFault>
    ensures { map_ok (option_map braces_said) result ≡ braces_from line.entry.bytes.now line.entry.at }
{
    // the brace's place, counted from 1, is the index behind it
    let brace = line.index();
    let body = line.unread();
    let n = run_of(ByteClass::Except(b'}'), body);
    if n == body.len() {
        return Err(LineFault::Braces(brace));
    }
    let behind = line.moved_to(brace + n + 1);
    if !ends_field(behind.unread()) {
        return Err(LineFault::Braces(brace));
    }
    let inside = Part {
        field: Field {
            text: front(body, n),
            place: brace + 1,
        },
    };
    let braces = read_inside(inside, brace)?;
    behind.read_end()?;
    Ok(Some(braces))
}

// Braces, or nothing, behind a posting's units.
#[tactic(auto, unfolding(crate::specs::Postings::braces_at))]
fn read_lot<'a>(mut line: Cursor<'a>) -> Result<Option<Braces<'a>>, LineFault>
    ensures { map_ok (option_map braces_said) result ≡ braces_at line.entry.bytes.now line.entry.at }
{
    let first = line.next_field();
    match first.text {
        [] => Ok(None),
        [b'{', ..] => read_braces(line.moved_to(first.place)),
        _ => Err(LineFault::Form(first.place)),
    }
}

#[tactic(auto, unfolding(crate::specs::Postings::units_at))]
fn read_units<'a>(mut line: Cursor<'a>) -> Result<Units<'a>, LineFault>
    ensures { map_ok units_said result ≡ units_at line.entry.bytes.now line.entry.at }
{
    let number = line.next_field();
    let amount = read_number(number)?;
    let commodity = read_commodity_name(line.next_field())?;
    let braces = read_lot(line)?;
    Ok(Units {
        number,
        amount,
        commodity,
        braces,
    })
}

// A posting line.
#[tactic(auto, unfolding(crate::specs::Postings::posting_of))]
pub(crate) fn read_posting<'a>(line: &'a [u8]) -> Result<Posting<'a>, LineFault>
    ensures { map_ok posting_said result ≡ posting_of line.now }
{
    let mut line = Cursor::start(line);
    let account = read_account_name(line.next_field())?;
    if line.is_at_end() {
        return Ok(Posting {
            account,
            units: None,
        });
    }
    let units = read_units(line)?;
    Ok(Posting {
        account,
        units: Some(units),
    })
}
