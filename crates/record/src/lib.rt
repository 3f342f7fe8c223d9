// The booking record's bytes (docs/RECORD.md): rows, the header, and the room that both need.
// Parameters call the record `book`, since `record` is a word of the contracts' language. No call reads what it holds.
#![tactic(auto)]

ghost use Rattle.std.specs.Prelude.{◌≡◌, ◌+◌, length, OnOk};
ghost use Rattle.record.specs.Layout.{room_for, header_after, record_after, if_ok};
ghost use Rattle.record.specs.Promises.{Appended, Headed, Room};

mod fields;
pub mod header;
pub mod rows;
mod writer;

use header::Header;
use refusal::Refusal;
use rows::Row;
use writer::{first_free, put_header, put_rows};

// Lengths in bytes, and how many rows a record may have.
pub const HEADER_LEN: usize = 24;

pub const ROW_LEN: usize = 36;

pub const MOST_ROWS: usize = 60_000;

// Whether a record of this length has room for the header and so many rows, and so many are allowed.
// Whoever decides before changing anything asks this first: appending then gives the same answer.
pub fn room_for(len: usize, rows: usize) -> Result<(), Refusal>
    ensures answer { result ≡ room_for len rows }
    ensures numbers { Room len rows result }
{
    // Divided rather than multiplied: no count of rows is too large to be judged.
    if len < HEADER_LEN || rows > (len - HEADER_LEN) / ROW_LEN {
        return Err(Refusal::RecordTooShort);
    }
    if rows > MOST_ROWS {
        return Err(Refusal::TooManyRows);
    }
    Ok(())
}

// Writes the rows behind those written before, and then the header; refused, not a byte.
#[tactic(auto, using(crate::proofs::Parts::appended), unfolding(crate::specs::Layout::record_after))]
pub fn append_rows(
    book: &mut [u8],
    written: u32,
    rows: &[Row],
    header: Header,
) -> Result<(), Refusal>
    ensures answer { result ≡ room_for (length book.old) (written + length rows.now) }
    ensures bytes { book.new ≡ if_ok result (record_after written rows.now header book.old) book.old }
    ensures appended { OnOk result (Appended written rows.now header book.old book.new) }
{
    let all = written as usize + rows.len();
    room_for(book.len(), all)?;
    // where there is room, a count of rows fits 16 bits
    put_rows(book, first_free(written as u16) as usize, rows);
    put_header(book, all as u16, header);
    Ok(())
}

// Writes the header alone; refused, not a byte.
#[tactic(auto, using(crate::proofs::Parts::headed))]
pub fn write_header(book: &mut [u8], written: u32, header: Header) -> Result<(), Refusal>
    ensures answer { result ≡ room_for (length book.old) written }
    ensures bytes { book.new ≡ if_ok result (header_after written header book.old) book.old }
    ensures headed { OnOk result (Headed written header book.old book.new) }
{
    room_for(book.len(), written as usize)?;
    put_header(book, written as u16, header);
    Ok(())
}
