// Holds a ledger to a table of calls and questions on standard input; the head of the table says how its rows are written.
// Each row that comes out otherwise, or changes what it may not, gives a line.
#![tactic(auto)]

mod answers;
mod calls;
mod fields;
mod seen;
mod step;
mod table;
mod tally;
mod trial;
mod words;

use std::io::Read;
use table::sections_of;
use tally::Tally;
use trial::hold_section;

fn main(rt: HostRuntime) -> anyhow::Result<()> {
    let heap = rt.alloc();
    let mut text = String::new(heap);
    rt.stdin().read_to_string(&mut text)?;
    let mut tally = Tally::new(heap);
    for section in &sections_of(heap, text.as_str())? {
        hold_section(heap, section, &mut tally)?;
    }
    rt.print(tally.report()?)?;
    Ok(())
}
