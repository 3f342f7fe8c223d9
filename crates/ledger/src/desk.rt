// A desk: where a draft is worked out before anything is changed. Whoever settles lends one, so that no call makes or moves its lists.
ghost use Rattle.std.specs.Prelude.{◌≡◌, []};
ghost use Rattle.stock.specs.Tables.{no_lots};

use booking::booked::Booked;
use booking::entries::{Rows, no_rows};

#[derive(Drop)]
pub struct Desk {
    pub(crate) booked: Booked,
    pub(crate) rows: Rows,
}

impl Desk {
    // With nothing on it.
    pub fn new() -> Desk
        ensures booked { result.booked ≡ (no_lots, []) }
        ensures rows { result.rows ≡ [] }
    {
        Desk {
            booked: Booked::new(),
            rows: no_rows(),
        }
    }
}
