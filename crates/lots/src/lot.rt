// A lot: a row whose units and cost are within their ranges, for as long as it lives. Clauses see it as that row.
ghost use Rattle.std.specs.Prelude.{◌≡◌, true, IfSome};
ghost use Rattle.lots.specs.Rows.{lot_in, in_range, shrunk, grown};

use crate::rows::LotRow;
use std::marker::Model;

// The most units of a lot, and the highest unit cost, in hundredths.
// `values` has the same number for amounts: it stands here too, since lots rest on no other crate.
pub const MOST: u32 = 99_999_999;

#[derive(Drop)]
pub struct Lot {
    row: LotRow,
}

impl Model for Lot {
    ghost use Rattle.std.specs.Prelude.{◌≡◌, true};
    ghost use Rattle.lots.specs.declared.rows.LotRow.{LotRow};
    ghost use Rattle.lots.specs.Rows.{in_range};

    ghost Value = { LotRow };

    ghost view = { λ l. l.row };

    ghost invariant = { λ l. in_range l.row ≡ true };
}

impl Lot {
    // The lot in a row, if the row is within a lot's ranges.
    pub fn new(row: LotRow) -> Option<Lot>
        ensures lot { result ≡ lot_in row }
        ensures ranges { IfSome result (λ l. in_range l ≡ true) }
    {
        if row.units < 1 || row.units > MOST || row.key.cost.number > MOST {
            return None;
        }
        Some(Lot { row })
    }

    // The plain row of a lot.
    pub fn row(&self) -> LotRow
        ensures row { result ≡ self.now }
        ensures ranges { in_range result ≡ true }
    {
        self.row
    }

    // The lot less so many units; none where that would empty it, since an empty lot does not exist.
    pub fn shrink(self, by: u32) -> Option<Lot>
        ensures rest { result ≡ shrunk self by }
        ensures ranges { IfSome result (λ l. in_range l ≡ true) }
    {
        if self.row.units <= by {
            return None;
        }
        Some(Lot {
            row: LotRow {
                units: self.row.units - by,
                ..self.row
            },
        })
    }

    // The lot with so many units more; none where that would pass the most units of a lot.
    pub fn grow(self, by: u32) -> Option<Lot>
        ensures more { result ≡ grown self by }
        ensures ranges { IfSome result (λ l. in_range l ≡ true) }
    {
        if by > MOST - self.row.units {
            return None;
        }
        Some(Lot {
            row: LotRow {
                units: self.row.units + by,
                ..self.row
            },
        })
    }
}
