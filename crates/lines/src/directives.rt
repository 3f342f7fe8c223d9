// Lines that start with a date, and the option line.
ghost use Rattle.std.specs.Prelude.{◌≡◌};
ghost use Rattle.std.specs.Option.{option_map};
ghost use Rattle.fields.specs.Results.{map_ok};
ghost use Rattle.fields.specs.Spots.{seen};
ghost use Rattle.lines.specs.Said.{said};
ghost use Rattle.lines.specs.Directives.{commodity_from, own_from, open_from, close_from, balance_from, transaction_from, dated_from, dated_line, keyword_named, method_named, method_from, option_from, directive_line};

use crate::cursor::Cursor;
use crate::directive::{Directive, Method};
use crate::fault::LineFault;
use byte_text::byte_at;
use fields::date::read_date;
use fields::field::Field;
use fields::name::{read_account_name, read_commodity_name};
use fields::number::read_number;
use values::date::Date;
use values::flag::Flag;

#[tactic(auto, unfolding(crate::specs::Directives::commodity_from))]
fn read_commodity<'a>(mut line: Cursor<'a>, date: Date) -> Result<Directive<'a>, LineFault>
    ensures { map_ok said result ≡ commodity_from line.entry.bytes.now date.number line.entry.at }
{
    let name = read_commodity_name(line.next_field())?;
    line.read_end()?;
    Ok(Directive::Commodity { date, name })
}

// The commodity that an account keeps, or nothing.
#[tactic(auto, unfolding(crate::specs::Directives::own_from))]
fn read_own<'a>(mut line: Cursor<'a>) -> Result<Option<Field<'a>>, LineFault>
    ensures { map_ok (option_map seen) result ≡ own_from line.entry.bytes.now line.entry.at }
{
    if line.is_at_end() {
        return Ok(None);
    }
    let own = read_commodity_name(line.next_field())?;
    line.read_end()?;
    Ok(Some(own))
}

#[tactic(auto, unfolding(crate::specs::Directives::open_from))]
fn read_open<'a>(mut line: Cursor<'a>, date: Date) -> Result<Directive<'a>, LineFault>
    ensures { map_ok said result ≡ open_from line.entry.bytes.now date.number line.entry.at }
{
    let account = read_account_name(line.next_field())?;
    let commodity = read_own(line)?;
    Ok(Directive::Open {
        date,
        account,
        commodity,
    })
}

#[tactic(auto, unfolding(crate::specs::Directives::close_from))]
fn read_close<'a>(mut line: Cursor<'a>, date: Date) -> Result<Directive<'a>, LineFault>
    ensures { map_ok said result ≡ close_from line.entry.bytes.now date.number line.entry.at }
{
    let account = read_account_name(line.next_field())?;
    line.read_end()?;
    Ok(Directive::Close { date, account })
}

#[tactic(auto, unfolding(crate::specs::Directives::balance_from))]
fn read_balance<'a>(mut line: Cursor<'a>, date: Date) -> Result<Directive<'a>, LineFault>
    ensures { map_ok said result ≡ balance_from line.entry.bytes.now date.number line.entry.at }
{
    let account = read_account_name(line.next_field())?;
    let number = line.next_field();
    let amount = read_number(number)?;
    let commodity = read_commodity_name(line.next_field())?;
    line.read_end()?;
    Ok(Directive::Balance {
        date,
        account,
        number,
        amount,
        commodity,
    })
}

#[tactic(auto, unfolding(crate::specs::Directives::transaction_from))]
fn read_transaction<'a>(
    mut line: Cursor<'a>,
    date: Date,
    flag: Flag,
) -> Result<Directive<'a>, LineFault>
    ensures { map_ok said result ≡ transaction_from line.entry.bytes.now date.number flag line.entry.at }
{
    let text = line.next_quoted()?;
    line.read_end()?;
    Ok(Directive::Transaction { date, flag, text })
}

// The word behind a date. It stands between the bytes and what is read: of one `match` on the bytes, with the readers as its
// arms, the proof of the last arm did not close.
#[derive(Clone, Copy)]
enum Keyword {
    Commodity,
    Open,
    Close,
    Balance,
    Transaction(Flag),
}

fn keyword_of(word: &[u8]) -> Option<Keyword>
    ensures { result ≡ keyword_named word.now }
{
    match word {
        b"commodity" => Some(Keyword::Commodity),
        b"open" => Some(Keyword::Open),
        b"close" => Some(Keyword::Close),
        b"balance" => Some(Keyword::Balance),
        b"*" => Some(Keyword::Transaction(Flag::Complete)),
        b"!" => Some(Keyword::Transaction(Flag::Incomplete)),
        _ => None,
    }
}

// The word behind the date, and what belongs to it.
#[tactic(auto, unfolding(crate::specs::Directives::dated_from))]
fn read_by_word<'a>(mut line: Cursor<'a>, date: Date) -> Result<Directive<'a>, LineFault>
    ensures { map_ok said result ≡ dated_from line.entry.bytes.now date.number line.entry.at }
{
    let word = line.next_field();
    match keyword_of(word.text) {
        Some(Keyword::Commodity) => read_commodity(line, date),
        Some(Keyword::Open) => read_open(line, date),
        Some(Keyword::Close) => read_close(line, date),
        Some(Keyword::Balance) => read_balance(line, date),
        Some(Keyword::Transaction(flag)) => read_transaction(line, date, flag),
        None => Err(LineFault::Form(word.place)),
    }
}

#[tactic(auto, unfolding(crate::specs::Directives::dated_line))]
fn read_dated<'a>(line: &'a [u8]) -> Result<Directive<'a>, LineFault>
    ensures { map_ok said result ≡ dated_line line.now }
{
    let mut line = Cursor::start(line);
    let date = read_date(line.next_field())?;
    read_by_word(line, date)
}

fn method_of(name: &[u8]) -> Option<Method>
    ensures { result ≡ method_named name.now }
{
    match name {
        b"STRICT" => Some(Method::Strict),
        b"FIFO" => Some(Method::Fifo),
        b"LIFO" => Some(Method::Lifo),
        _ => None,
    }
}

#[tactic(auto, unfolding(crate::specs::Directives::method_from))]
fn read_method<'a>(mut line: Cursor<'a>) -> Result<Directive<'a>, LineFault>
    ensures { map_ok said result ≡ method_from line.entry.bytes.now line.entry.at }
{
    let value = line.next_quoted()?;
    let method = method_of(value.text).ok_or(LineFault::Form(value.place))?;
    line.read_end()?;
    Ok(Directive::BookingMethod(method))
}

#[tactic(auto, unfolding(crate::specs::Directives::option_from, crate::specs::Directives::is_method_option))]
fn read_option<'a>(mut line: Cursor<'a>) -> Result<Directive<'a>, LineFault>
    ensures { map_ok said result ≡ option_from line.entry.bytes.now line.entry.at }
{
    let name = line.next_quoted()?;
    if name.text != b"booking_method".as_slice() {
        return Err(LineFault::Form(name.place));
    }
    read_method(line)
}

// A line that is no posting.
#[tactic(auto, unfolding(crate::specs::Directives::directive_line))]
pub(crate) fn read_directive<'a>(line: &'a [u8], number: u32) -> Result<Directive<'a>, LineFault>
    ensures { map_ok said result ≡ directive_line number line.now }
{
    if byte_at(line, 0).is_ascii_digit() {
        return read_dated(line);
    }
    let mut line = Cursor::start(line);
    if number == 1 && line.next_field().text == b"option".as_slice() {
        return read_option(line);
    }
    Err(LineFault::Form(1))
}
