// counter: carries out one list of calls under two booking policies, as a fitter's own program would, and prints what they answer, what the
// ledger then holds, and what stands in the record.
#![tactic(auto)]

mod rows;
mod story;

use books::outcome::Outcome;
use ledger::Ledger;
use listing::figures::{Day, Hundredths};
use lots::policy::{Fifo, Lifo, Policy, WholeLot};
use lots::rows::LotRow;
use pages::rows::{read, rows_of};
use rows::Printed;
use runs::run;
use std::{fmt, io};
use story::{BOOK_LEN, CALL_COUNT, calls};

// What a call answered, in the words of docs/CALLS.md.
#[derive(Clone, Copy)]
struct Answer(Outcome);

impl fmt::Display for Answer {
    fn fmt<W: fmt::Write>(&self, f: &mut fmt::Formatter<W>) -> fmt::Result {
        match self.0 {
            Outcome::Declared(number) => write!(f, "commodity {number}"),
            Outcome::Opened(number) => write!(f, "account {number}"),
            Outcome::Begun(number) => write!(f, "slip {number}"),
            Outcome::Settled(number) => write!(f, "transaction {number}"),
            Outcome::Done => f.write_str("done"),
            Outcome::Refused(fault) => write!(f, "{fault}"),
        }
    }
}

fn list_answers(rt: &HostRuntime, answers: &[Outcome]) -> io::Result<()> {
    println!(rt; "answers")?;
    for (number, answer) in (1..=u32::MAX).zip(answers) {
        println!(rt; "{number} {}", Answer(*answer))?;
    }
    Ok(())
}

fn list_holdings<P: Policy>(rt: &HostRuntime, ledger: &Ledger<P>, account: u16) -> io::Result<()> {
    for commodity in (1..=u8::MAX).take(ledger.counts().commodities) {
        let held = ledger.holding(account, commodity).unwrap_or(0);
        if held != 0 {
            println!(rt;
                "account {account} {} of commodity {commodity}",
                Hundredths(held)
            )?;
        }
    }
    Ok(())
}

fn list_balances<P: Policy>(rt: &HostRuntime, ledger: &Ledger<P>) -> io::Result<()> {
    println!(rt; "balances")?;
    for account in (1..=u16::MAX).take(ledger.counts().accounts) {
        list_holdings(rt, ledger, account)?;
    }
    Ok(())
}

fn list_lot(rt: &HostRuntime, lot: LotRow) -> io::Result<()> {
    let key = lot.key;
    println!(rt;
        "lot {} of {} at {} of commodity {}: {} of commodity {} in account {}",
        lot.serial,
        Day(key.date),
        Hundredths(i64::from(key.cost.number)),
        key.cost.commodity,
        Hundredths(i64::from(lot.units)),
        key.commodity,
        key.account
    )
}

fn list_lots<P: Policy>(rt: &HostRuntime, ledger: &Ledger<P>) -> io::Result<()> {
    println!(rt; "lots")?;
    for serial in 1..ledger.counts().next {
        if let Ok(lot) = ledger.lot(serial) {
            list_lot(rt, lot)?;
        }
    }
    Ok(())
}

fn list_rows(rt: &HostRuntime, book: &[u8; BOOK_LEN]) -> io::Result<()> {
    println!(rt; "rows")?;
    for row in rows_of(book) {
        println!(rt; "{}", Printed(read(row)))?;
    }
    Ok(())
}

fn report<P: Policy + Drop>(rt: &HostRuntime, policy: P) -> io::Result<()> {
    println!(rt; "{} code {}", policy.name(), policy.code())?;
    let calls = calls();
    let mut answers = [Outcome::Done; CALL_COUNT];
    let mut book = [0; BOOK_LEN];
    let ledger = run(policy, &calls, &mut answers, &mut book);
    list_answers(rt, &answers)?;
    list_balances(rt, &ledger)?;
    list_lots(rt, &ledger)?;
    list_rows(rt, &book)
}

fn main(rt: HostRuntime) -> io::Result<()> {
    report(&rt, Fifo)?;
    report(&rt, WholeLot { below: Lifo })
}
