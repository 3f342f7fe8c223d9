// How many rows there were, how many differ, and a line for each of these.
use std::alloc::Global;
use std::fmt::Write;

#[derive(Drop)]
pub struct Tally {
    out: String,
    rows: u32,
    differ: u32,
}

impl Tally {
    pub(crate) fn new(heap: Global) -> Tally {
        Tally {
            out: String::new(heap),
            rows: 0,
            differ: 0,
        }
    }

    // More on the row that is counted next.
    pub(crate) fn tell(&mut self, what: &str, text: &str) -> anyhow::Result<()> {
        writeln!(self.out, "{what}: {text}")?;
        Ok(())
    }

    pub(crate) fn count(&mut self, row: &str, holds: bool) -> anyhow::Result<()> {
        self.rows = self.rows.saturating_add(1);
        if holds {
            return Ok(());
        }
        self.differ = self.differ.saturating_add(1);
        self.tell("differs", row)
    }

    pub(crate) fn report(&mut self) -> anyhow::Result<&str> {
        writeln!(self.out, "{} rows, {} differ", self.rows, self.differ)?;
        Ok(self.out.as_str())
    }
}
