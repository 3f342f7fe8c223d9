// How many cases there were, how many differ, and of each of these the lines that do.
use crate::table::Case;
use std::alloc::Global;
use std::fmt::Write;

#[derive(Drop)]
pub struct Tally {
    out: String,
    cases: u32,
    differ: u32,
}

impl Tally {
    pub(crate) fn new(heap: Global) -> Tally {
        Tally {
            out: String::new(heap),
            cases: 0,
            differ: 0,
        }
    }

    fn tell_lines(&mut self, expected: &str, found: &str) -> anyhow::Result<()> {
        let most = expected.lines().count().max(found.lines().count());
        let mut expected_lines = expected.lines();
        let mut found_lines = found.lines();
        for number in 1..=most {
            let wanted = expected_lines.next().unwrap_or("nothing");
            let given = found_lines.next().unwrap_or("nothing");
            if wanted != given {
                writeln!(self.out, "line {number}: expected {wanted}")?;
                writeln!(self.out, "line {number}: found {given}")?;
            }
        }
        Ok(())
    }

    pub(crate) fn count(&mut self, case: &Case<'_>, found: &str) -> anyhow::Result<()> {
        self.cases = self.cases.saturating_add(1);
        let expected = case.expected.as_str();
        if case.unread.is_empty() && found == expected {
            return Ok(());
        }
        self.differ = self.differ.saturating_add(1);
        writeln!(self.out, "differs: {}", case.name)?;
        for row in &case.unread {
            writeln!(self.out, "not read: {row}")?;
        }
        self.tell_lines(expected, found)
    }

    pub(crate) fn report(&mut self) -> anyhow::Result<&str> {
        writeln!(self.out, "{} cases, {} differ", self.cases, self.differ)?;
        Ok(self.out.as_str())
    }
}
