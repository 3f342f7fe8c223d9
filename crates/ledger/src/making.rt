// A new ledger.
ghost use Rattle.std.specs.Prelude.{◌≡◌};
ghost use Rattle.books.specs.States.{empty_ledger};

use crate::Ledger;
use crate::rank::Rank;
use chart::table::Chart;
use holdings::held::Holdings;
use lots::policy::Policy;

impl<P: Policy> Ledger<P> {
    // Nothing is named, booked or drafted yet.
    pub fn new(policy: P) -> Ledger<P>
        ensures { result ≡ record { policy = policy; state = empty_ledger } }
    {
        Ledger {
            policy,
            chart: Chart::new(),
            holdings: Holdings::new(),
            draft: None,
            last_date: 0,
            last_rank: Rank::Naming,
            transactions: 0,
            rows: 0,
        }
    }
}
