// The rows of a record, read from its bytes at the offsets of docs/RECORD.md. A ledger never reads a record: that is for its host.
ghost use Rattle.std.specs.Prelude.{◌≡◌, ◌+◌, ◌≤◌, length, take, drop};
ghost use Rattle.pages.specs.Pages.{flag_sign};
ghost use Rattle.pages.specs.Rows.{rows_in, row_read};

const HEADER_LEN: usize = 24;

const ROW_LEN: usize = 36;

fn four_at(bytes: &[u8], at: usize) -> [u8; 4]
    requires { at + 4 ≤ length bytes.now }
    ensures { result ≡ take 4 (drop at bytes.now) }
{
    [bytes[at], bytes[at + 1], bytes[at + 2], bytes[at + 3]]
}

// The lot of a purchase or a draw.
#[derive(Clone, Copy)]
pub struct LotRead {
    pub cost: u32,
    pub acquired: u32,
    pub serial: u32,
    pub currency: u8,
}

// A row as its bytes have it.
#[derive(Clone, Copy)]
pub struct RowRead {
    pub line: u32,
    pub transaction: u32,
    pub date: u32,
    pub account: u16,
    pub commodity: u8,
    pub kind: u8,
    pub units: i32,
    pub lot: LotRead,
    pub flag: u8,
}

// The rows that the header counts, as far as the record has them; none, where there is no room for a header.
pub fn rows_of(book: &[u8]) -> &[[u8; ROW_LEN]]
    ensures { result.now ≡ rows_in book.now }
{
    if book.len() < HEADER_LEN {
        return &[];
    }
    let (_, behind) = book.split_at(HEADER_LEN);
    let (rows, _) = behind.as_chunks::<ROW_LEN>();
    let written = u32::from_le_bytes(four_at(book, 8)) as usize;
    &rows[..written.min(rows.len())]
}

fn read_lot(row: &[u8; ROW_LEN]) -> LotRead
    ensures { result ≡ (row_read row.now).lot }
{
    LotRead {
        cost: u32::from_le_bytes(four_at(row, 20)),
        acquired: u32::from_le_bytes(four_at(row, 24)),
        serial: u32::from_le_bytes(four_at(row, 28)),
        currency: row[32],
    }
}

// A row as a value.
pub fn read(row: &[u8; ROW_LEN]) -> RowRead
    ensures { result ≡ row_read row.now }
{
    RowRead {
        line: u32::from_le_bytes(four_at(row, 0)),
        transaction: u32::from_le_bytes(four_at(row, 4)),
        date: u32::from_le_bytes(four_at(row, 8)),
        account: u16::from_le_bytes([row[12], row[13]]),
        commodity: row[14],
        kind: row[15],
        units: i32::from_le_bytes(four_at(row, 16)),
        lot: read_lot(row),
        flag: row[33],
    }
}

impl RowRead {
    // As journals write it.
    pub fn flag_sign(&self) -> char
        ensures { result ≡ flag_sign self.now.flag }
    {
        if self.flag == 0 { '*' } else { '!' }
    }
}
