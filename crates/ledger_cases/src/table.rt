// The table cut into sections: each begins with a row that starts a new ledger.
use std::alloc::Global;

#[derive(Drop)]
pub struct Section<'a> {
    // the policy's word and the record's length, as they are written
    pub ledger: &'a str,
    pub rows: Vec<&'a str>,
}

impl<'a> Section<'a> {
    fn new(heap: Global, ledger: &'a str) -> Section<'a> {
        Section {
            ledger,
            rows: Vec::new(heap),
        }
    }
}

// A row is passed over, starts a section, or belongs to the section under way. Rows above the first new ledger stand in a section
// that names none.
fn place_row<'a>(
    heap: Global,
    row: &'a str,
    sections: &mut Vec<Section<'a>>,
) -> anyhow::Result<()> {
    if row.is_empty() || row.starts_with('#') {
        return Ok(());
    }
    if let Some(ledger) = row.strip_prefix("new ") {
        sections.push(Section::new(heap, ledger))?;
        return Ok(());
    }
    if sections.is_empty() {
        sections.push(Section::new(heap, ""))?;
    }
    if let Some(section) = sections.last_mut() {
        section.rows.push(row)?;
    }
    Ok(())
}

pub(crate) fn sections_of<'a>(heap: Global, text: &'a str) -> anyhow::Result<Vec<Section<'a>>> {
    let mut sections = Vec::new(heap);
    for row in text.lines() {
        place_row(heap, row, &mut sections)?;
    }
    Ok(sections)
}
