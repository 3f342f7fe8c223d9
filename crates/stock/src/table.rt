// The table of the open lots. It keeps plain rows, in the order of their serials. Clauses see it as a `Table`.
use bounded::list::Bounded;
use lots::rows::LotRow;
use std::marker::Model;

pub mod making;
pub mod purchase;
pub mod reading;
pub mod reduction;

// The most lots that are open at a time.
pub const MOST_LOTS: usize = 256;

#[derive(Drop)]
pub struct LotTable {
    rows: Bounded<LotRow, MOST_LOTS>,
    next: u32,
}

impl Model for LotTable {
    ghost use Rattle.stock.specs.Tables.{Table};
    ghost use Rattle.stock.specs.Kept.{WellKept};

    ghost Value = { Table };

    ghost view = { λ t. record { lots = t.rows; next = t.next } };

    ghost invariant = { λ t. WellKept (record { lots = t.rows; next = t.next }) };
}
