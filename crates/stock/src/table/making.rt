// A new table, and one that becomes as another is.
ghost use Rattle.std.specs.Prelude.{◌≡◌, ◌≤◌, length};
ghost use Rattle.stock.specs.Tables.{no_lots};
ghost use Rattle.stock.specs.Kept.{WellKept};

use super::LotTable;
use bounded::list::Bounded;
use lots::rows::LotRow;

impl LotTable {
    // No lot is open, and the first will bear serial 1.
    pub fn new() -> LotTable
        ensures empty { result ≡ no_lots }
        ensures kept { WellKept result }
    {
        LotTable {
            rows: Bounded::new(LotRow::default()),
            next: 1,
        }
    }

    // Becomes a table of the same lots.
    pub fn copy_from(&mut self, other: &LotTable)
        ensures copied { self.new ≡ other.now }
        ensures few { length self.new.lots ≤ 256 }
        ensures kept { WellKept self.old × WellKept self.new }
    {
        self.rows.copy_from(&other.rows);
        self.next = other.next;
    }
}
