// The fields of the record read back as numbers, in the order of its layout.
use std::fmt::Write;

#[derive(Clone, Copy)]
enum Field {
    Bytes(usize),
    // four bytes with a sign
    Amount,
}

const HEADER: [Field; 7] = [
    Field::Bytes(2),
    Field::Bytes(2),
    Field::Bytes(4),
    Field::Bytes(4),
    Field::Bytes(4),
    Field::Bytes(4),
    Field::Bytes(4),
];

const ROW: [Field; 13] = [
    Field::Bytes(4),
    Field::Bytes(4),
    Field::Bytes(4),
    Field::Bytes(2),
    Field::Bytes(1),
    Field::Bytes(1),
    Field::Amount,
    Field::Bytes(4),
    Field::Bytes(4),
    Field::Bytes(4),
    Field::Bytes(1),
    Field::Bytes(1),
    Field::Bytes(2),
];

pub const HEADER_BYTES: usize = 24;

pub const ROW_BYTES: usize = 36;

impl Field {
    fn len(self) -> usize {
        match self {
            Field::Bytes(len) => len,
            Field::Amount => 4,
        }
    }

    // The lowest byte stands first.
    fn show(self, bytes: &[u8], out: &mut String) -> anyhow::Result<()> {
        let mut number = 0u32;
        for b in bytes.iter().rev() {
            number = number.wrapping_mul(256).wrapping_add(u32::from(*b));
        }
        match self {
            Field::Bytes(_) => write!(out, " {number}")?,
            Field::Amount => write!(out, " {}", number.cast_signed())?,
        }
        Ok(())
    }
}

fn show_fields(bytes: &[u8], fields: &[Field], out: &mut String) -> anyhow::Result<()> {
    let mut rest = bytes;
    for field in fields {
        let Some((front, behind)) = rest.split_at_checked(field.len()) else {
            return Ok(());
        };
        field.show(front, out)?;
        rest = behind;
    }
    Ok(())
}

pub(crate) fn show_header(book: &[u8], out: &mut String) -> anyhow::Result<()> {
    write!(out, "header")?;
    show_fields(book, &HEADER, out)
}

// Rows are counted from 1. A field that the record has no bytes for is not shown.
pub(crate) fn show_row(book: &[u8], number: usize, out: &mut String) -> anyhow::Result<()> {
    write!(out, "row")?;
    let Some(before) = number.checked_sub(1) else {
        return Ok(());
    };
    let start = before
        .saturating_mul(ROW_BYTES)
        .saturating_add(HEADER_BYTES);
    show_fields(book.get(start..).unwrap_or(&[]), &ROW, out)
}

// In hexadecimal, from one offset to before another.
pub(crate) fn show_bytes(
    book: &[u8],
    from: usize,
    to: usize,
    out: &mut String,
) -> anyhow::Result<()> {
    write!(out, "bytes ")?;
    for b in book.get(from..to).unwrap_or(&[]) {
        write!(out, "{b:02x}")?;
    }
    Ok(())
}
