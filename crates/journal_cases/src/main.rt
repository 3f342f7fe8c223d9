// Holds the booking of whole journals, and what is printed of it, to a table of cases on standard input; the head of the table says
// how its rows are written. Of a case that comes out otherwise each line that differs is printed.
#![tactic(auto)]

mod table;
mod tally;

use pages::journal::{BOOK_LEN, print_journal};
use std::io::Read;
use table::cases_of;
use tally::Tally;

fn main(rt: HostRuntime) -> anyhow::Result<()> {
    let heap = rt.alloc();
    let mut text = String::new(heap);
    rt.stdin().read_to_string(&mut text)?;
    let mut tally = Tally::new(heap);
    for case in &cases_of(heap, text.as_str())? {
        let mut book = vec![in heap; 0; BOOK_LEN]?;
        let found = print_journal(
            heap,
            case.journal.as_slice(),
            book.as_mut_slice(),
            case.with_lots,
        )?;
        tally.count(case, found.as_str())?;
    }
    rt.print(tally.report()?)?;
    Ok(())
}
