// Writes the example of docs/RECORD.md and a draw behind it, tries what is refused, and prints every byte of the record after each call.
#![tactic(auto)]

use record::header::Header;
use record::rows::{LotFields, Row, RowKind};
use record::{HEADER_LEN, ROW_LEN, append_rows, room_for, write_header};
use refusal::Refusal;
use std::io;
use values::flag::Flag;

// Room for the header, three rows and eight bytes more.
const BOOK_LEN: usize = 140;

// Bought on 2024-03-04 at 12.50.
const LOT: LotFields = LotFields {
    cost: 1250,
    acquired: 20240304,
    serial: 1,
    currency: 1,
};

fn main(rt: HostRuntime) -> io::Result<()> {
    let mut book = [0xee; BOOK_LEN];
    let r = write_header(&mut book, 0, header(0, 1));
    show(&rt, "header of a new ledger", r, &book)?;
    let r = append_rows(&mut book, 0, &purchase(), header(1, 2));
    show(&rt, "a purchase and its blank", r, &book)?;
    let r = append_rows(&mut book, 2, &[draw()], header(2, 2));
    show(&rt, "a draw", r, &book)?;
    let r = append_rows(&mut book, 3, &[draw()], header(3, 2));
    show(&rt, "a row too many for this record", r, &book)?;
    let r = write_header(&mut book, 4, header(3, 2));
    show(&rt, "a header for more rows than there is room", r, &book)?;
    for (len, rows) in [
        (23, 0),
        (24, 0),
        (59, 1),
        (60, 1),
        (2_160_024, 60_000),
        (2_160_060, 60_001),
        (2_160_059, 60_001),
    ] {
        println!(rt;
            "{len} bytes for {rows} rows: {}",
            number(room_for(len, rows))
        )?;
    }
    Ok(())
}

// Whole-lot over FIFO, so many transactions, and the serial of the next lot.
fn header(transactions: u32, next: u32) -> Header {
    Header {
        policy: 10,
        transactions,
        next,
    }
}

// Four sensors at 12.50, and the blank that pays for them.
fn purchase() -> [Row; 2] {
    let bought = Row {
        line: 7,
        transaction: 1,
        date: 20240304,
        account: 1,
        commodity: 2,
        kind: RowKind::Purchase(LOT),
        units: 400,
        flag: Flag::Incomplete,
    };
    let filled = Row {
        line: 8,
        account: 2,
        commodity: 1,
        kind: RowKind::FilledBlank,
        units: -5000,
        ..bought
    };
    [bought, filled]
}

// A draw whose numbers fill their bytes.
fn draw() -> Row {
    Row {
        line: 0x0403_0201,
        transaction: 2,
        date: 21991231,
        account: 0x0201,
        commodity: 16,
        kind: RowKind::Draw(LOT),
        units: -1,
        flag: Flag::Complete,
    }
}

// 0 where a call was accepted, or the refusal's number.
fn number(r: Result<(), Refusal>) -> u8 {
    r.err().map_or(0, |refusal| refusal.number())
}

fn show(
    rt: &HostRuntime,
    what: &str,
    r: Result<(), Refusal>,
    book: &[u8; BOOK_LEN],
) -> io::Result<()> {
    println!(rt; "{what}: {}", number(r))?;
    let (header, rows) = book.split_at(HEADER_LEN);
    show_bytes(rt, header)?;
    for row in rows.chunks(ROW_LEN) {
        println!(rt; "")?;
        show_bytes(rt, row)?;
    }
    println!(rt; "")
}

fn show_bytes(rt: &HostRuntime, bytes: &[u8]) -> io::Result<()> {
    for b in bytes {
        print!(rt; "{b:02x}")?;
    }
    Ok(())
}
