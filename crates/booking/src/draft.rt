// A draft, and booking one whole.
ghost use Rattle.std.specs.Prelude.{◌≡◌, ◌+◌, ◌≤◌, true, length, OnOk};
ghost use Rattle.std.specs.List.{list_all};
ghost use Rattle.stock.specs.Promises.{map_ok};
ghost use Rattle.stock.specs.Kept.{WellKept};
ghost use Rattle.stock.specs.Tables.{last_serial};
ghost use Rattle.booking.specs.Ranges.{posting_in_range};
ghost use Rattle.booking.specs.Stages.{book_postings, book_draft, IsKept};

use crate::booked::Booked;
use crate::posting::Posting;
use crate::postings::Postings;
use lots::policy::Policy;
use refusal::Fault;
use stock::table::LotTable;
use values::flag::Flag;

// A transaction that is begun and neither settled nor torn.
#[derive(Drop)]
pub struct Draft {
    // the source number of its beginning
    pub line: u32,
    pub date: u32,
    pub flag: Flag,
    pub postings: Postings,
}

impl Booked {
    // Each posting upon the lots that the one before left.
    fn book_postings<P: Policy>(
        &mut self,
        policy: &P,
        day: u32,
        postings: &[Posting],
    ) -> Result<(), Fault>
        requires few { length postings.now ≤ 16 }
        requires ranged { list_all posting_in_range postings.now ≡ true }
        requires room { length self.old.1 + length self.old.0.lots ≤ 256 }
        requires serials { self.old.0.next + 288 ≤ last_serial }
        ensures defined { map_ok (λ _. self.new) result ≡ book_postings (P.Policy.order policy.now) day self.old postings.now }
        ensures serials { self.new.0.next + length self.old.1 ≤ self.old.0.next + length self.new.1 }
        ensures entered { OnOk result (length self.old.1 + length postings.now ≤ length self.new.1) }
        ensures few { length self.new.1 ≤ 288 }
        ensures keeps { IsKept self.old → IsKept self.new }
    {
        for posting in postings {
            self.book_posting(policy, day, posting)?;
        }
        Ok(())
    }
}

// What a draft of this day comes to upon the open lots, which stay as they are; or the fault of the first posting that is refused.
// They go to the place that is lent, whatever was in it; refused, what is in it says nothing. A table is far from its last serial:
// no more lots are opened than rows are written.
pub fn book<P: Policy>(
    policy: &P,
    lots: &LotTable,
    day: u32,
    postings: &Postings,
    booked: &mut Booked,
) -> Result<(), Fault>
    requires { lots.now.next + 288 ≤ last_serial }
    ensures defined { map_ok (λ _. booked.new) result ≡ book_draft (P.Policy.order policy.now) day lots.now postings.now }
    ensures serials { OnOk result (booked.new.0.next ≤ lots.now.next + length booked.new.1) }
    ensures entered { OnOk result (length postings.now ≤ length booked.new.1) }
    ensures few { length booked.new.1 ≤ 288 }
    ensures kept { IsKept booked.new }
    ensures lots { WellKept lots.now }
    ensures postings { (length postings.now ≤ 16) × (list_all posting_in_range postings.now ≡ true) }
{
    booked.start(lots);
    booked.book_postings(policy, day, postings.as_slice())
}
