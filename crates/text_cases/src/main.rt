// Holds the reading of lines to a table of cases on standard input: a line's number, what is expected of it and its
// text, with tabs between. In the text %HH stands for the byte HH. Rows that are empty or start with # are passed over.
// A table may hold any bytes: what is missing in a row is empty, and a digit that is none counts as 0.
#![tactic(auto)]

use lines::line::read_line;
use listing::Listed;
use std::alloc::Global;
use std::fmt;
use std::fmt::Write;
use std::io::Read;

#[derive(Clone, Copy)]
struct Case<'a> {
    number: u32,
    expected: &'a [u8],
    text: &'a [u8],
}

// A part of a row as it is printed: each byte as the character of its number.
#[derive(Clone, Copy)]
struct Part<'a>(&'a [u8]);

impl fmt::Display for Part<'_> {
    fn fmt<W: fmt::Write>(&self, f: &mut fmt::Formatter<W>) -> fmt::Result {
        for b in self.0 {
            f.write_char(char::from(*b))?;
        }
        Ok(())
    }
}

fn hex_digit(b: u8) -> u8 {
    match b {
        b'0'..=b'9' => b - b'0',
        b'A'..=b'F' => b - b'A' + 10,
        _ => 0,
    }
}

fn number_of(digits: &[u8]) -> u32 {
    digits.iter().fold(0u32, |n, b| {
        n.saturating_mul(10)
            .saturating_add(u32::from(hex_digit(*b)))
    })
}

fn case_of(row: &[u8]) -> Case<'_> {
    let mut parts = row.splitn(3, |b| *b == b'\t');
    Case {
        number: number_of(parts.next().unwrap_or(&[])),
        expected: parts.next().unwrap_or(&[]),
        text: parts.next().unwrap_or(&[]),
    }
}

// The text of a case, with each %HH as the byte that it stands for. No decoding of the kit's: it takes small letters for digits, and
// leaves a % as it is that no two digits follow.
fn decoded(heap: Global, text: &[u8]) -> anyhow::Result<Vec<u8>> {
    let mut bytes = Vec::new(heap);
    let mut rest = text.iter().copied();
    while let Some(b) = rest.next() {
        let byte = if b == b'%' {
            let high = hex_digit(rest.next().unwrap_or(0));
            let low = hex_digit(rest.next().unwrap_or(0));
            high.wrapping_mul(16).wrapping_add(low)
        } else {
            b
        };
        bytes.push(byte)?;
    }
    Ok(bytes)
}

// What the reader makes of a line, in the words of the table.
fn outcome(heap: Global, line: &[u8], number: u32) -> anyhow::Result<String> {
    let text = match read_line(line, number) {
        Ok(None) => format!(in heap; "blank")?,
        Ok(Some(directive)) => format!(in heap; "{}", Listed(directive))?,
        Err(fault) => format!(in heap; "{fault}")?,
    };
    Ok(text)
}

// Whether a case comes out as expected; if not, a line says how.
fn holds(heap: Global, case: Case<'_>, out: &mut String) -> anyhow::Result<bool> {
    let line = decoded(heap, case.text)?;
    let found = outcome(heap, line.as_slice(), case.number)?;
    if found.as_bytes() == case.expected {
        return Ok(true);
    }
    writeln!(
        out,
        "expected {} found {} of {}",
        Part(case.expected),
        found.as_str(),
        Part(case.text)
    )?;
    Ok(false)
}

fn main(rt: HostRuntime) -> anyhow::Result<()> {
    let heap = rt.alloc();
    let mut table = Vec::new(heap);
    rt.stdin().read_to_end(&mut table)?;
    let mut out = String::new(heap);
    let mut cases: u32 = 0;
    let mut differ: u32 = 0;
    for row in table.as_slice().split(|b| *b == b'\n') {
        if matches!(row, [] | [b'#', ..]) {
            continue;
        }
        cases = cases.saturating_add(1);
        if !holds(heap, case_of(row), &mut out)? {
            differ = differ.saturating_add(1);
        }
    }
    writeln!(out, "{cases} cases, {differ} differ")?;
    rt.print(out.as_str())?;
    Ok(())
}
