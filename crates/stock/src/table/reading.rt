// What can be asked of a table.
ghost use Rattle.std.specs.Prelude.{◌≡◌};
ghost use Rattle.stock.specs.Tables.{lot_of_serial};
ghost use Rattle.stock.specs.Kept.{WellKept};

use super::LotTable;
use lots::rows::LotRow;

impl LotTable {
    // The open lots in the order of their serials.
    pub fn lots(&self) -> &[LotRow]
        ensures listed { result.now ≡ self.now.lots }
        ensures kept { WellKept self.now }
    {
        self.rows.as_slice()
    }

    // The serial of the lot that is opened next.
    pub fn next_serial(&self) -> u32
        ensures next { result ≡ self.now.next }
        ensures kept { WellKept self.now }
    {
        self.next
    }

    // The open lot that bears a serial.
    pub fn lot(&self, serial: u32) -> Option<LotRow>
        ensures found { result ≡ lot_of_serial serial self.now.lots }
        ensures kept { WellKept self.now }
    {
        self.lots().iter().copied().find(|row| row.serial == serial)
    }
}
