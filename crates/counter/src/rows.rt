// How the rows of a record are printed. The lot is printed where it is not all zeros.
use listing::figures::{Day, Hundredths};
use pages::rows::{LotRead, RowRead};
use std::fmt;

// A type around another, since only a type of one's own can be given a `Display`.
#[derive(Clone, Copy)]
pub struct Printed<T>(pub T);

fn kind_name(kind: u8) -> &'static str {
    match kind {
        1 => "plain posting",
        2 => "purchase",
        3 => "draw",
        4 => "filled blank",
        _ => "unknown",
    }
}

impl fmt::Display for Printed<LotRead> {
    fn fmt<W: fmt::Write>(&self, f: &mut fmt::Formatter<W>) -> fmt::Result {
        let lot = self.0;
        write!(
            f,
            "lot {} of {} at {} of commodity {}",
            lot.serial,
            Day(lot.acquired),
            Hundredths(i64::from(lot.cost)),
            lot.currency
        )
    }
}

impl fmt::Display for Printed<RowRead> {
    fn fmt<W: fmt::Write>(&self, f: &mut fmt::Formatter<W>) -> fmt::Result {
        let row = self.0;
        let flag = row.flag_sign();
        write!(
            f,
            "line {} transaction {} of {} {flag}: {} of {} of commodity {} in account {}",
            row.line,
            row.transaction,
            Day(row.date),
            kind_name(row.kind),
            Hundredths(i64::from(row.units)),
            row.commodity,
            row.account
        )?;
        if row.lot.serial != 0 {
            write!(f, ", {}", Printed(row.lot))?;
        }
        Ok(())
    }
}
