// The table cut into cases.
use percent_encoding::percent_decode;
use std::alloc::Global;
use std::fmt::Write;

#[derive(Drop)]
pub struct Case<'a> {
    heap: Global,
    pub name: &'a str,
    pub with_lots: bool,
    pub journal: Vec<u8>,
    pub expected: String,
    // rows that stand for nothing
    pub unread: Vec<&'a str>,
}

#[derive(Clone, Copy)]
enum Content<'a> {
    // with a line feed behind it
    Line(&'a str),
    Bytes(&'a str),
    Output(&'a str),
}

// A row of a case: what it stands for, and how often.
#[derive(Clone, Copy)]
struct Row<'a> {
    times: u32,
    content: Content<'a>,
}

impl<'a> Content<'a> {
    fn of(marked: &'a str) -> Option<Content<'a>> {
        if let Some(text) = marked.strip_prefix('|') {
            return Some(Content::Line(text));
        }
        if let Some(text) = marked.strip_prefix('~') {
            return Some(Content::Bytes(text));
        }
        Some(Content::Output(marked.strip_prefix('=')?))
    }
}

impl<'a> Row<'a> {
    // None where the row cannot be read.
    fn of(row: &'a str) -> Option<Row<'a>> {
        let marked = row.trim_start_matches(|c: char| c.is_ascii_digit());
        let count = row.strip_suffix(marked)?;
        let times = if count.is_empty() {
            1
        } else {
            count.parse::<u32>().ok()?
        };
        Some(Row {
            times,
            content: Content::of(marked)?,
        })
    }
}

// What a text of a row is at one of the row's turns: each number in angle brackets, then one more, and so on.
fn write_turn(out: &mut String, text: &str, turn: u32) -> anyhow::Result<()> {
    let mut parts = text.split('<');
    write!(out, "{}", parts.next().unwrap_or(""))?;
    for part in parts {
        match counter_of(part) {
            Some((first, behind)) => write!(out, "{}{behind}", first.saturating_add(turn))?,
            None => write!(out, "<{part}")?,
        }
    }
    Ok(())
}

// The number up to the closing bracket, and what stands behind.
fn counter_of(part: &str) -> Option<(u32, &str)> {
    let (number, behind) = part.split_once('>')?;
    Some((number.parse::<u32>().ok()?, behind))
}

impl<'a> Case<'a> {
    fn new(heap: Global, name: &'a str, with_lots: bool) -> Case<'a> {
        Case {
            heap,
            name,
            with_lots,
            journal: Vec::new(heap),
            expected: String::new(heap),
            unread: Vec::new(heap),
        }
    }

    // The case that a heading row begins.
    fn headed(heap: Global, row: &'a str) -> Option<Case<'a>> {
        if let Some(name) = row.strip_prefix("lots ") {
            return Some(Case::new(heap, name, true));
        }
        Some(Case::new(heap, row.strip_prefix("case ")?, false))
    }

    fn add_bytes(&mut self, text: &str, turn: u32) -> anyhow::Result<()> {
        let mut turned = String::new(self.heap);
        write_turn(&mut turned, text, turn)?;
        percent_decode(turned.as_bytes()).append_to(&mut self.journal)?;
        Ok(())
    }

    fn add(&mut self, content: Content<'_>, turn: u32) -> anyhow::Result<()> {
        match content {
            Content::Line(text) => {
                self.add_bytes(text, turn)?;
                self.journal.push(b'\n')?;
            }
            Content::Bytes(text) => self.add_bytes(text, turn)?,
            Content::Output(text) => {
                write_turn(&mut self.expected, text, turn)?;
                writeln!(self.expected)?;
            }
        }
        Ok(())
    }

    fn add_row(&mut self, row: &'a str) -> anyhow::Result<()> {
        let Some(Row { times, content }) = Row::of(row) else {
            self.unread.push(row)?;
            return Ok(());
        };
        for turn in 0..times {
            self.add(content, turn)?;
        }
        Ok(())
    }
}

// A row is passed over, begins a case, or belongs to the case under way. Rows above the first heading stand in a case of no name.
fn place_row<'a>(heap: Global, row: &'a str, cases: &mut Vec<Case<'a>>) -> anyhow::Result<()> {
    if row.is_empty() || row.starts_with('#') {
        return Ok(());
    }
    if let Some(case) = Case::headed(heap, row) {
        cases.push(case)?;
        return Ok(());
    }
    if cases.is_empty() {
        cases.push(Case::new(heap, "", false))?;
    }
    if let Some(case) = cases.last_mut() {
        case.add_row(row)?;
    }
    Ok(())
}

pub(crate) fn cases_of<'a>(heap: Global, text: &'a str) -> anyhow::Result<Vec<Case<'a>>> {
    let mut cases = Vec::new(heap);
    for row in text.lines() {
        place_row(heap, row, &mut cases)?;
    }
    Ok(cases)
}
