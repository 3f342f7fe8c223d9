// A shelf: a table of lots, what is done to it, and what each act answers.
use lots::lot::Lot;
use lots::policy::Policy;
use lots::rows::{Cost, Key, LotRow};
use matching::wanted::{Draw, Reduction, Wanted};
use stock::table::LotTable;
use stock::table::reduction::no_draws;

// Commodity 1 is EUR, commodity 2 the part; account 1 is the shelf.
pub const ANY: Wanted = Wanted {
    account: 1,
    commodity: 2,
    cost: None,
    date: None,
};

pub const JANUARY: Key = Key {
    account: 1,
    commodity: 2,
    cost: Cost {
        number: 2450,
        commodity: 1,
    },
    date: 20240103,
};

pub const FEBRUARY: Key = Key {
    account: 1,
    commodity: 2,
    cost: Cost {
        number: 2600,
        commodity: 1,
    },
    date: 20240201,
};

pub(crate) fn euro(number: u32) -> Cost {
    Cost {
        number,
        commodity: 1,
    }
}

pub(crate) fn part(cost: u32, date: u32) -> Key {
    Key {
        account: 1,
        commodity: 2,
        cost: euro(cost),
        date,
    }
}

// A draw as the serial of its lot and the units drawn.
pub type Drawn = (u32, u32);

pub const NONE: Drawn = (0, 0);

#[derive(Clone, Copy, PartialEq, Debug)]
pub enum Answer {
    Serial(u32),
    // how many draws, and the first three
    Draws(usize, Drawn, Drawn, Drawn),
    Units(u32),
    Refused(u8),
    // the units or the cost are no lot's, or no lot bears the serial
    NoLot,
}

#[derive(Drop)]
pub struct Shelf {
    pub table: LotTable,
}

impl Shelf {
    pub(crate) fn new() -> Shelf {
        Shelf {
            table: LotTable::new(),
        }
    }

    // A second shelf with the same lots.
    pub(crate) fn duplicate(&self) -> Shelf {
        let mut second = Shelf::new();
        second.table.copy_from(&self.table);
        second
    }

    pub(crate) fn buy(&mut self, key: Key, units: u32) -> Answer {
        let Some(lot) = Lot::new(LotRow {
            key,
            units,
            serial: 0,
        }) else {
            return Answer::NoLot;
        };
        match self.table.purchase(&lot) {
            Ok(serial) => Answer::Serial(serial),
            Err(refusal) => Answer::Refused(refusal.number()),
        }
    }

    pub(crate) fn sell<P: Policy>(&mut self, policy: &P, wanted: Wanted, units: u32) -> Answer {
        let asked = Reduction {
            policy,
            wanted,
            units,
        };
        let mut draws = no_draws();
        match self.table.reduce(&asked, &mut draws) {
            Ok(()) => {
                let list = draws.as_slice();
                Answer::Draws(list.len(), drawn(list, 0), drawn(list, 1), drawn(list, 2))
            }
            Err(refusal) => Answer::Refused(refusal.number()),
        }
    }

    // The units of the open lot of a serial.
    pub(crate) fn look(&self, serial: u32) -> Answer {
        self.table
            .lot(serial)
            .map_or(Answer::NoLot, |row| Answer::Units(row.units))
    }
}

fn drawn(draws: &[Draw], place: usize) -> Drawn {
    draws
        .get(place)
        .map_or(NONE, |draw| (draw.lot.serial, draw.units))
}
