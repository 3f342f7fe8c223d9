// A journal as lines.
ghost use Rattle.std.specs.Prelude.{◌≡◌, ◌<◌, length, IfSome};
ghost use Rattle.std.specs.Option.{option_map};
ghost use Rattle.lines.specs.Lines.{lines_of, journal_fault};
ghost use Rattle.lines.specs.Journals.{cut_said, first_line, lines_by};

use byte_text::{ByteClass, after, front, run_of};
use refusal::{Fault, Refusal};

// The most bytes of a journal.
pub const MOST_BYTES: usize = 60_000;

// A line without its end, and what stands behind that.
#[derive(Clone, Copy)]
pub struct LineCut<'a> {
    pub line: &'a [u8],
    pub rest: &'a [u8],
}

// A longer journal is refused as a whole, and nothing of it is read.
pub fn check_journal(journal: &[u8]) -> Result<(), Fault>
    ensures { result ≡ journal_fault journal.now }
{
    if journal.len() > MOST_BYTES {
        return Err(Refusal::WrongByte.on(0));
    }
    Ok(())
}

// The first line of what is left of a journal, if any.
#[tactic(auto, unfolding(crate::specs::Journals::first_line))]
pub fn split_line<'a>(journal: &'a [u8]) -> Option<LineCut<'a>>
    ensures value { option_map cut_said result ≡ first_line journal.now }
    ensures lines { lines_of journal.now ≡ lines_by result }
    ensures shorter { IfSome result (λ c. length c.rest.now < length journal.now) }
{
    if journal.is_empty() {
        return None;
    }
    let n = run_of(ByteClass::Except(b'\n'), journal);
    Some(LineCut {
        line: front(journal, n),
        rest: after(journal, n + 1),
    })
}
