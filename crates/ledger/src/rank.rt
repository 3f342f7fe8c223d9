// The ranks of dated calls: on one day names come first, then assertions, then transactions, and closings last.
ghost use Rattle.std.specs.Prelude.{◌≡◌};
ghost use Rattle.ledger.specs.Ranks.{rank_number};

#[derive(Clone, Copy, PartialEq, Eq, PartialOrd, Ord, Debug)]
pub enum Rank {
    Naming = 0,
    Asserting = 1,
    Transacting = 2,
    Closing = 3,
}

impl Rank {
    pub fn number(self) -> u8
        ensures { result ≡ rank_number self }
    {
        self as u8
    }
}
