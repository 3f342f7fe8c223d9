// lotbook: reads a journal from standard input, books it, and prints what was refused and what the books hold then.
#![tactic(auto)]

mod options;

use lines::journal::MOST_BYTES;
use options::Options;
use pages::journal::{BOOK_LEN, print_journal};
use std::io::{Read, Write};
use std::process::ExitCode;
use std::{env, fs};

// Prints what becomes of a journal, and hands the record to the file that is asked for.
fn book(rt: &HostRuntime, journal: &[u8], options: &Options) -> anyhow::Result<()> {
    let mut book = vec![in rt.alloc(); 0; BOOK_LEN]?;
    let out = print_journal(rt.alloc(), journal, book.as_mut_slice(), options.lots)?;
    if let Some(file) = &options.record {
        fs::write(rt, file.as_str(), book.as_slice())?;
    }
    // whole, not line by line
    rt.stdout().write_all(out.as_str().as_bytes())?;
    Ok(())
}

fn main(rt: HostRuntime) -> anyhow::Result<ExitCode> {
    let Some(options) = Options::parse(env::args(&rt)?) else {
        eprintln!(rt; "usage: lotbook [--record FILE] [--lots] < JOURNAL")?;
        return Ok(ExitCode::FAILURE);
    };
    let mut journal = Vec::new(rt.alloc());
    // one byte too many is enough to refuse the journal
    rt.stdin()
        .take(MOST_BYTES as u64 + 1)
        .read_to_end(&mut journal)?;
    book(&rt, journal.as_slice(), &options)?;
    Ok(ExitCode::SUCCESS)
}
