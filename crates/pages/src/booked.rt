// What lotbook prints of a booked journal: its refusals, the record's rows, the holdings, and the open lots.
ghost use Rattle.std.specs.Prelude.{◌≡◌, ◌∷◌, [], ◌++◌, OnOk};
ghost use Rattle.std.specs.String.{string_bytes};
ghost use Rattle.pages.specs.Pages.{account_name, commodity_name, refusal_line, refusal_lines, units_text, serial_text, row_head, row_line, row_lines, held_line, holding_line, account_lines, holding_lines, lot_head, lot_end, lot_line, lot_lines, lots_part, page_text};
ghost use Rattle.pages.specs.Rows.{rows_in};

use crate::rows::{RowRead, read, rows_of};
use books::outcome::Outcome;
use ledger::Ledger;
use listing::Listed;
use listing::figures::{Day, Hundredths};
use lots::policy::Policy;
use lots::rows::LotRow;
use std::alloc::AllocError;

// A name by its number, counted from 1; empty where there is none.
#[tactic(auto, unfolding(crate::specs::Pages::account_name))]
fn account_name<P: Policy>(ledger: &Ledger<P>, number: u16) -> &[u8]
    ensures { result.now ≡ account_name ledger.now.state.names number }
{
    let place = usize::from(number).saturating_sub(1);
    ledger
        .accounts()
        .get(place)
        .map_or(b"", |account| account.name.as_slice())
}

#[tactic(auto, unfolding(crate::specs::Pages::commodity_name))]
fn commodity_name<P: Policy>(ledger: &Ledger<P>, number: u8) -> &[u8]
    ensures { result.now ≡ commodity_name ledger.now.state.names number }
{
    let place = usize::from(number).saturating_sub(1);
    ledger
        .commodities()
        .get(place)
        .map_or(b"", |name| name.as_slice())
}

#[tactic(auto, unfolding(crate::specs::Pages::refusal_line))]
fn write_refusal(out: &mut String, outcome: &Outcome) -> Result<(), AllocError>
    ensures { OnOk result (string_bytes out.new ≡ string_bytes out.old ++ refusal_line outcome.now) }
{
    match outcome {
        Outcome::Refused(fault) => writeln!(out, "{fault}"),
        _ => Ok(()),
    }
}

fn write_refusals(out: &mut String, outcomes: &[Outcome]) -> Result<(), AllocError>
    ensures { OnOk result (string_bytes out.new ≡ string_bytes out.old ++ refusal_lines outcomes.now) }
{
    for outcome in outcomes {
        write_refusal(out, outcome)?;
    }
    Ok(())
}

#[tactic(auto, unfolding(crate::specs::Pages::units_text))]
fn write_units<P: Policy>(
    out: &mut String,
    ledger: &Ledger<P>,
    units: i64,
    commodity: u8,
) -> Result<(), AllocError>
    ensures { OnOk result (string_bytes out.new ≡ string_bytes out.old ++ units_text ledger.now.state.names units commodity) }
{
    write!(
        out,
        "{} {}",
        Hundredths(units),
        Listed(commodity_name(ledger, commodity))
    )
}

#[tactic(auto, unfolding(crate::specs::Pages::serial_text))]
fn write_serial(out: &mut String, serial: u32) -> Result<(), AllocError>
    ensures { OnOk result (string_bytes out.new ≡ string_bytes out.old ++ serial_text serial) }
{
    if serial == 0 {
        return Ok(());
    }
    write!(out, " #{serial}")
}

#[tactic(auto, unfolding(crate::specs::Pages::row_head))]
fn write_row_head<P: Policy>(
    out: &mut String,
    ledger: &Ledger<P>,
    row: &RowRead,
) -> Result<(), AllocError>
    ensures { OnOk result (string_bytes out.new ≡ string_bytes out.old ++ row_head ledger.now.state.names row.now) }
{
    write!(
        out,
        "{} {} {} {} ",
        row.line,
        Day(row.date),
        row.flag_sign(),
        Listed(account_name(ledger, row.account))
    )
}

fn write_row<P: Policy>(
    out: &mut String,
    ledger: &Ledger<P>,
    row: &RowRead,
) -> Result<(), AllocError>
    ensures { OnOk result (string_bytes out.new ≡ string_bytes out.old ++ row_line ledger.now.state.names row.now) }
{
    write_row_head(out, ledger, row)?;
    write_units(out, ledger, i64::from(row.units), row.commodity)?;
    write_serial(out, row.lot.serial)?;
    writeln!(out)
}

fn write_rows<P: Policy>(
    out: &mut String,
    ledger: &Ledger<P>,
    book: &[u8],
) -> Result<(), AllocError>
    ensures { OnOk result (string_bytes out.new ≡ string_bytes out.old ++ row_lines ledger.now.state.names (rows_in book.now)) }
{
    for row in rows_of(book) {
        write_row(out, ledger, &read(row))?;
    }
    Ok(())
}

fn write_account_name<P: Policy>(
    out: &mut String,
    ledger: &Ledger<P>,
    account: u16,
) -> Result<(), AllocError>
    ensures { OnOk result (string_bytes out.new ≡ string_bytes out.old ++ (account_name ledger.now.state.names account ++ (32 ∷ []))) }
{
    write!(out, "{} ", Listed(account_name(ledger, account)))
}

fn write_held<P: Policy>(
    out: &mut String,
    ledger: &Ledger<P>,
    account: u16,
    commodity: u8,
    units: i64,
) -> Result<(), AllocError>
    ensures { OnOk result (string_bytes out.new ≡ string_bytes out.old ++ held_line ledger.now.state.names account commodity units) }
{
    write_account_name(out, ledger, account)?;
    write_units(out, ledger, units, commodity)?;
    writeln!(out)
}

// Nothing for a holding of 0.
#[tactic(auto, unfolding(crate::specs::Pages::holding_line))]
fn write_holding<P: Policy>(
    out: &mut String,
    ledger: &Ledger<P>,
    account: u16,
    commodity: u8,
    units: i64,
) -> Result<(), AllocError>
    ensures { OnOk result (string_bytes out.new ≡ string_bytes out.old ++ holding_line ledger.now.state.names account commodity units) }
{
    if units == 0 {
        return Ok(());
    }
    write_held(out, ledger, account, commodity, units)
}

fn write_account<P: Policy>(
    out: &mut String,
    ledger: &Ledger<P>,
    account: u16,
) -> Result<(), AllocError>
    ensures { OnOk result (string_bytes out.new ≡ string_bytes out.old ++ account_lines ledger.now.state account 1 ledger.now.state.names.commodities) }
{
    // numbers are counted from 1
    for (place, _) in ledger.commodities().iter().enumerate() {
        let commodity = place as u8 + 1;
        let units = ledger.holding(account, commodity).unwrap_or(0);
        write_holding(out, ledger, account, commodity, units)?;
    }
    Ok(())
}

fn write_holdings<P: Policy>(out: &mut String, ledger: &Ledger<P>) -> Result<(), AllocError>
    ensures { OnOk result (string_bytes out.new ≡ string_bytes out.old ++ holding_lines ledger.now.state 1 ledger.now.state.names.accounts) }
{
    for (place, _) in ledger.accounts().iter().enumerate() {
        write_account(out, ledger, place as u16 + 1)?;
    }
    Ok(())
}

#[tactic(auto, unfolding(crate::specs::Pages::lot_head))]
fn write_lot_head<P: Policy>(
    out: &mut String,
    ledger: &Ledger<P>,
    lot: &LotRow,
) -> Result<(), AllocError>
    ensures { OnOk result (string_bytes out.new ≡ string_bytes out.old ++ lot_head ledger.now.state.names lot.now) }
{
    write!(
        out,
        "#{} {} ",
        lot.serial,
        Listed(account_name(ledger, lot.key.account))
    )
}

#[tactic(auto, unfolding(crate::specs::Pages::lot_end))]
fn write_lot_end(out: &mut String, lot: &LotRow) -> Result<(), AllocError>
    ensures { OnOk result (string_bytes out.new ≡ string_bytes out.old ++ lot_end lot.now) }
{
    writeln!(out, " {}", Day(lot.key.date))
}

fn write_lot<P: Policy>(
    out: &mut String,
    ledger: &Ledger<P>,
    lot: &LotRow,
) -> Result<(), AllocError>
    ensures { OnOk result (string_bytes out.new ≡ string_bytes out.old ++ lot_line ledger.now.state.names lot.now) }
{
    let cost = lot.key.cost;
    write_lot_head(out, ledger, lot)?;
    write_units(out, ledger, i64::from(lot.units), lot.key.commodity)?;
    write!(out, " ")?;
    write_units(out, ledger, i64::from(cost.number), cost.commodity)?;
    write_lot_end(out, lot)
}

fn write_lots<P: Policy>(out: &mut String, ledger: &Ledger<P>) -> Result<(), AllocError>
    ensures { OnOk result (string_bytes out.new ≡ string_bytes out.old ++ lot_lines ledger.now.state.names ledger.now.state.books.table.lots) }
{
    for lot in ledger.lots() {
        write_lot(out, ledger, lot)?;
    }
    Ok(())
}

// The open lots, if they are asked for.
#[tactic(auto, unfolding(crate::specs::Pages::lots_part))]
fn write_lots_part<P: Policy>(
    out: &mut String,
    ledger: &Ledger<P>,
    with_lots: bool,
) -> Result<(), AllocError>
    ensures { OnOk result (string_bytes out.new ≡ string_bytes out.old ++ lots_part ledger.now.state with_lots) }
{
    if !with_lots {
        return Ok(());
    }
    writeln!(out, "lots")?;
    write_lots(out, ledger)
}

// All that lotbook prints: of the outcomes the refusals, then the rows of the record, the holdings that are not 0, and if it is
// asked for the open lots.
pub fn write_booked<P: Policy>(
    out: &mut String,
    ledger: &Ledger<P>,
    outcomes: &[Outcome],
    book: &[u8],
    with_lots: bool,
) -> Result<(), AllocError>
    ensures { OnOk result (string_bytes out.new ≡ string_bytes out.old ++ page_text ledger.now.state outcomes.now book.now with_lots) }
{
    write_refusals(out, outcomes)?;
    writeln!(out, "register")?;
    write_rows(out, ledger, book)?;
    writeln!(out, "balances")?;
    write_holdings(out, ledger)?;
    write_lots_part(out, ledger, with_lots)
}
