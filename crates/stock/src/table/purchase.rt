// Purchases.
ghost use Rattle.std.specs.Prelude.{◌≡◌, ◌+◌, ◌<◌, ◌≤◌, true, length, None};
ghost use Rattle.stock.specs.Places.{OpenAt, opened};
ghost use Rattle.lots.specs.Rows.{in_range};
ghost use Rattle.stock.specs.Tables.{last_serial, purchased, purchased_late};
ghost use Rattle.stock.specs.Kept.{WellKept};
ghost use Rattle.stock.specs.Promises.{BringsUnits, KeptIfRefused};

use super::LotTable;
use lots::lot::Lot;
use lots::rows::{Key, LotRow};
use refusal::Refusal;

// Where the open lot of a key stands.
fn place_of(rows: &[LotRow], key: Key) -> Option<usize>
    ensures { OpenAt key rows.now result }
{
    rows.iter().position(|row| row.key == key)
}

impl LotTable {
    // The bought units come to the open lot of their key, or open one under the next serial. Answers the serial of that lot.
    // The serial of the lot that is handed in says nothing: it is not open yet.
    pub fn purchase(&mut self, bought: &Lot) -> Result<u32, Refusal>
        ensures booked { self.old.next < last_serial → (result, self.new) ≡ purchased bought.now.key bought.now.units self.old }
        ensures out_of_serials { last_serial ≤ self.old.next → (result, self.new) ≡ purchased_late bought.now.key bought.now.units self.old }
        ensures brings_units { BringsUnits bought.now.key bought.now.units self.old (result, self.new) }
        ensures one_lot_more { length self.new.lots ≤ length self.old.lots + 1 }
        ensures one_serial_more { self.new.next ≤ self.old.next + 1 }
        ensures ranges { in_range bought.now ≡ true }
        ensures kept { WellKept self.old × WellKept self.new }
        ensures refusal_changes_nothing { KeptIfRefused self.old (result, self.new) }
    {
        let row = bought.row();
        let Some(place) = place_of(self.lots(), row.key) else {
            return self.start(bought);
        };
        // what stands in the table is within a lot's ranges
        let grown = Lot::new(self.lots()[place])
            .unwrap()
            .grow(row.units)
            .ok_or(Refusal::LotTooLarge)?
            .row();
        self.rows.put(place, grown);
        Ok(grown.serial)
    }

    // A new lot. The highest number is no lot's serial, since the next serial has to fit too.
    fn start(&mut self, bought: &Lot) -> Result<u32, Refusal>
        requires { OpenAt bought.now.key self.old.lots None }
        ensures opened { (result, self.new) ≡ opened bought.now.key bought.now.units self.old }
        ensures one_lot_more { length self.new.lots ≤ length self.old.lots + 1 }
        ensures one_serial_more { self.new.next ≤ self.old.next + 1 }
        ensures kept { WellKept self.new }
    {
        let serial = self.next;
        let next = serial.checked_add(1).ok_or(Refusal::TooManyLots)?;
        let row = LotRow {
            serial,
            ..bought.row()
        };
        self.rows.push(row).map_err(|_| Refusal::TooManyLots)?;
        self.next = next;
        Ok(serial)
    }
}
