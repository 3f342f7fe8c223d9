// What a reduction asks for, and what it draws.
ghost use Rattle.std.specs.Prelude.{◌≡◌};
ghost use Rattle.matching.specs.Matching.{matches};

use lots::rows::{Cost, LotRow};

// Account and commodity, and what the braces give: a cost with its commodity, a lot date, both or nothing.
#[derive(Clone, Copy, PartialEq, Eq, Debug)]
pub struct Wanted {
    pub account: u16,
    pub commodity: u8,
    pub cost: Option<Cost>,
    pub date: Option<u32>,
}

// So many units taken from a lot, which is given as it was before.
#[derive(Clone, Copy, PartialEq, Eq, Debug, Default)]
pub struct Draw {
    pub lot: LotRow,
    pub units: u32,
}

// So many units of the lots that are wanted, which a policy orders and settles.
#[derive_where(Clone, Copy)]
pub struct Reduction<'a, P> {
    pub policy: &'a P,
    pub wanted: Wanted,
    pub units: u32,
}

impl Wanted {
    // Whether account, commodity and each part that is given agree with the lot's.
    pub fn matches(&self, row: &LotRow) -> bool
        ensures { result ≡ matches self.now row.now }
    {
        row.key.account == self.account
            && row.key.commodity == self.commodity
            && self.cost.is_none_or(|cost| row.key.cost == cost)
            && self.date.is_none_or(|date| row.key.date == date)
    }
}
