// One line of a journal: its kind, and what it says.
ghost use Rattle.std.specs.Prelude.{◌≡◌, Ok};
ghost use Rattle.std.specs.Option.{option_map};
ghost use Rattle.fields.specs.Results.{map_ok};
ghost use Rattle.lines.specs.Grammar.{ReadsExactly};
ghost use Rattle.lines.specs.Said.{said};
ghost use Rattle.lines.specs.Lines.{line_kind, wrong_byte, unless_wrong, posting_line, other_line, by_kind, line_says, stray_fault};

use crate::cursor::Cursor;
use crate::directive::Directive;
use crate::directives::read_directive;
use crate::fault::LineFault;
use crate::postings::read_posting;
use byte_text::{ByteClass, all_of, byte_at, run_of};
use refusal::Fault;

// A blank line is empty or of at most 120 spaces, a posting line starts with a space, and any other line
// is a directive or the option.
#[derive(Clone, Copy, Debug, PartialEq, Eq)]
pub enum LineKind {
    Blank,
    Posting,
    Other,
}

// The kind of a line, decided before any of its bytes is judged.
#[tactic(auto, unfolding(crate::specs::Lines::line_kind))]
pub fn kind_of(line: &[u8]) -> LineKind
    ensures { result ≡ line_kind line.now }
{
    if line.len() <= 120 && all_of(ByteClass::Space, line) {
        return LineKind::Blank;
    }
    if byte_at(line, 0) == b' ' {
        LineKind::Posting
    } else {
        LineKind::Other
    }
}

// Wrong is the first byte outside 32 to 126, or the first past the 120 that a line may have.
#[tactic(auto, unfolding(crate::specs::Lines::wrong_byte))]
fn check_bytes(line: &[u8]) -> Result<(), LineFault>
    ensures { result ≡ unless_wrong (wrong_byte line.now) (Ok tt) }
{
    let good = run_of(ByteClass::Printable, line);
    if good == line.len() && line.len() <= 120 {
        Ok(())
    } else {
        Err(LineFault::WrongByte(good.min(120) + 1))
    }
}

#[tactic(auto, using(crate::proofs::Bytes::not_wrong), unfolding(crate::specs::Lines::posting_line))]
fn read_posting_line<'a>(line: &'a [u8]) -> Result<Directive<'a>, LineFault>
    ensures { map_ok said result ≡ posting_line line.now }
{
    check_bytes(line)?;
    Ok(Directive::Posting(read_posting(line)?))
}

#[tactic(auto, using(crate::proofs::Bytes::not_wrong), unfolding(crate::specs::Lines::other_line))]
fn read_other_line<'a>(line: &'a [u8], number: u32) -> Result<Directive<'a>, LineFault>
    ensures { map_ok said result ≡ other_line number line.now }
{
    check_bytes(line)?;
    read_directive(line, number)
}

fn read_by_kind<'a>(line: &'a [u8], number: u32) -> Result<Option<Directive<'a>>, LineFault>
    ensures { map_ok (option_map said) result ≡ by_kind number line.now (line_kind line.now) }
{
    match kind_of(line) {
        LineKind::Blank => Ok(None),
        LineKind::Posting => Ok(Some(read_posting_line(line)?)),
        LineKind::Other => Ok(Some(read_other_line(line, number)?)),
    }
}

// What a line says, nothing if it is blank, or its fault. Lines are numbered from 1.
pub fn read_line<'a>(line: &'a [u8], number: u32) -> Result<Option<Directive<'a>>, Fault>
    ensures value { map_ok (option_map said) result ≡ line_says number line.now }
    ensures exactly { ReadsExactly number line.now (map_ok (option_map said) result) }
{
    read_by_kind(line, number).map_err(|fault| fault.on(number))
}

// How a posting line is refused that belongs to no transaction.
#[tactic(auto, unfolding(crate::specs::Lines::stray_fault))]
pub fn stray_fault(line: &[u8], number: u32) -> Fault
    ensures { result ≡ stray_fault number line.now }
{
    let first_field = LineFault::Form(Cursor::start(line).rest().place);
    check_bytes(line).err().unwrap_or(first_field).on(number)
}
