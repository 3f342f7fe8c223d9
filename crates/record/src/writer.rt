// Writing rows and the header where there is room for them.
ghost use Rattle.std.specs.Prelude.{◌≡◌, ◌+◌, ◌*◌, ◌≤◌, ◌++◌, length, drop};
ghost use Rattle.record.specs.Layout.{header_length, row_length, first_free, row_bytes, rows_bytes, header_bytes, header_after, write_at};
ghost use Rattle.record.specs.Promises.{Sized, AllSized};

use crate::fields::put;
use crate::header::Header;
use crate::rows::Row;
use crate::{HEADER_LEN, ROW_LEN};

// The layout that this crate writes.
const EDITION: u16 = 1;

// The offset of the first free byte behind so many rows. Their number has 16 bits, since a record has at most 60,000.
pub fn first_free(rows: u16) -> u32
    ensures { result ≡ first_free rows }
{
    HEADER_LEN as u32 + ROW_LEN as u32 * u32::from(rows)
}

fn write_row(out: &mut [u8], row: &Row)
    requires { length out.old ≡ row_length }
    ensures bytes { out.new ≡ row_bytes row.now }
    ensures sized { Sized row.now }
{
    let lot = row.kind.lot();
    put(out, 0, row.line.to_le_bytes());
    put(out, 4, row.transaction.to_le_bytes());
    put(out, 8, row.date.to_le_bytes());
    put(out, 12, row.account.to_le_bytes());
    put(out, 14, [row.commodity, row.kind.number()]);
    put(out, 16, row.units.to_le_bytes());
    put(out, 20, lot.cost.to_le_bytes());
    put(out, 24, lot.acquired.to_le_bytes());
    put(out, 28, lot.serial.to_le_bytes());
    put(out, 32, [lot.currency, row.flag.number(), 0, 0]);
}

#[tactic(auto, using(crate::proofs::Written::rows_more))]
fn write_rows(out: &mut [u8], rows: &[Row])
    requires { row_length * length rows.now ≤ length out.old }
    ensures bytes { out.new ≡ rows_bytes rows.now ++ drop (row_length * length rows.now) out.old }
    ensures sized { AllSized rows.now }
{
    // By index: of what is written through `chunks_exact_mut` the library promises only the length, so the bytes are not proved.
    for (i, row) in rows.iter().enumerate() {
        write_row(&mut out[ROW_LEN * i..ROW_LEN * i + ROW_LEN], row);
    }
}

// The part of the record from an offset on is lent to the row writer.
pub fn put_rows(book: &mut [u8], at: usize, rows: &[Row])
    requires { at + row_length * length rows.now ≤ length book.old }
    ensures bytes { book.new ≡ write_at book.old at (rows_bytes rows.now) }
    ensures sized { AllSized rows.now }
{
    write_rows(&mut book[at..], rows);
}

fn write_fields(out: &mut [u8], rows: u16, header: Header)
    requires { length out.old ≡ header_length }
    ensures { out.new ≡ header_bytes rows header }
{
    put(out, 0, EDITION.to_le_bytes());
    put(out, 2, header.policy.to_le_bytes());
    put(out, 4, header.transactions.to_le_bytes());
    put(out, 8, u32::from(rows).to_le_bytes());
    put(out, 12, first_free(0).to_le_bytes());
    put(out, 16, first_free(rows).to_le_bytes());
    put(out, 20, header.next.to_le_bytes());
}

#[tactic(auto, unfolding(crate::specs::Layout::header_after))]
pub fn put_header(book: &mut [u8], rows: u16, header: Header)
    requires { header_length ≤ length book.old }
    ensures { book.new ≡ header_after rows header book.old }
{
    write_fields(&mut book[0..HEADER_LEN], rows, header);
}
