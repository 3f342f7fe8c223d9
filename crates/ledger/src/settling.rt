// Settling a draft. Everything is decided before anything is changed.
ghost use Rattle.std.specs.Prelude.{◌≡◌, ◌≤◌, ◌+◌, Some, Ok, true, length, IfOk, OnOk};
ghost use Rattle.record.specs.Layout.{most_rows, room_for, record_after};
ghost use Rattle.stock.specs.Promises.{map_ok};
ghost use Rattle.booking.specs.Balances.{balances_after, all_within};
ghost use Rattle.booking.specs.Rows.{rows_of};
ghost use Rattle.booking.specs.Weighing.{blank_account};
ghost use Rattle.books.specs.Calls.{settling};
ghost use Rattle.books.specs.declared.outcome.Outcome.TheVariants.{Settled};
ghost use Rattle.books.specs.Lookups.{own_of};
ghost use Rattle.books.specs.Recording.{header_of, record_after_call};
ghost use Rattle.ledger.specs.Answers.{carried_out, outcome_with_slip, GivesBack};
ghost use Rattle.ledger.specs.Kept.{in_state};
ghost use Rattle.ledger.specs.Settling.{weighed_draft, planned, planned_for, plan, CanBeDone, after_plan};

use crate::Ledger;
use crate::desk::Desk;
use crate::fault::reported;
use crate::rank::Rank;
use crate::slip::Slip;
use booking::booked::Booked;
use booking::draft::{Draft, book};
use booking::entries::{Entries, blank_account};
use booking::entry::Transaction;
use lots::policy::Policy;
use record::{append_rows, room_for};
use refusal::{Fault, Refusal};

impl<P: Policy> Ledger<P> {
    // The own commodity of the account of the first blank, if there is one and it has one.
    fn own_of_blank(&self, entries: &Entries) -> Option<u8>
        ensures { result ≡ own_of self.now.state.names (blank_account entries.now) }
    {
        blank_account(entries.as_slice()).and_then(|account| self.chart.own(account))
    }

    // 25 to 27, 31 and 32: fills the blank among the entries of a draft.
    fn weigh(&self, draft: &Draft, entries: &mut Entries, lent: usize) -> Result<(), Refusal>
        ensures weighed { map_ok (λ _. entries.new) result ≡ weighed_draft self.now.state lent draft.now entries.old }
        ensures some { OnOk result (1 ≤ length draft.now.postings) }
        ensures entries { OnOk result (length entries.new ≡ length entries.old) }
        ensures within { OnOk result (all_within (balances_after self.now.state.books.balances entries.new) ≡ true) }
        ensures room { OnOk result (room_for lent (self.now.state.rows + length entries.new) ≡ Ok tt) }
    {
        let own = self.own_of_blank(entries);
        self.holdings
            .weigh(draft.postings.as_slice(), entries, own)?;
        room_for(lent, self.rows as usize + entries.as_slice().len())
    }

    // The transaction that a draft becomes, booked upon the ledger's lots, or the first fault.
    fn plan(&self, draft: &Draft, lent: usize, booked: &mut Booked) -> Result<Transaction, Fault>
        ensures planned { map_ok (λ t. plan t booked.new) result ≡ planned (P.Policy.order self.now.policy) self.now.state lent draft.now }
        ensures can_be_done { IfOk result (λ t. CanBeDone self.now.state lent (plan t booked.new)) }
    {
        book(
            &self.policy,
            self.holdings.lots(),
            draft.date,
            &draft.postings,
            booked,
        )?;
        let weighed = self.weigh(draft, &mut booked.entries, lent);
        reported(draft.line, weighed)?;
        Ok(Transaction {
            number: self.transactions + 1,
            date: draft.date,
            flag: draft.flag,
        })
    }

    // What settling the draft of a slip will leave.
    fn check_settling(
        &self,
        slip: &Slip,
        lent: usize,
        booked: &mut Booked,
    ) -> Result<Transaction, Fault>
        ensures planned { map_ok (λ t. Some (plan t booked.new)) result ≡ planned_for (P.Policy.order self.now.policy) self.now.state slip.now.number lent }
        ensures can_be_done { IfOk result (λ t. CanBeDone self.now.state lent (plan t booked.new)) }
    {
        let draft = reported(0, self.draft_of(slip))?;
        self.plan(draft, lent, booked)
    }

    // The ledger as a plan has it.
    fn take_over(&mut self, transaction: &Transaction, booked: &Booked)
        requires some { 1 ≤ length booked.now.1 }
        requires rows { self.old.state.rows + length booked.now.1 ≤ most_rows }
        requires serials { booked.now.0.next ≤ self.old.state.rows + length booked.now.1 + 1 }
        requires within { all_within (balances_after self.old.state.books.balances booked.now.1) ≡ true }
        ensures { self.new ≡ in_state self.old (after_plan self.old.state (plan transaction.now booked.now)) }
    {
        self.transactions += 1;
        self.rows += booked.entries.as_slice().len() as u32;
        self.holdings.settle(booked);
        self.draft = None;
        self.accept(transaction.date, Rank::Transacting);
    }

    // A plan is carried out, in the ledger and in the record.
    fn carry_out(&mut self, transaction: &Transaction, desk: &mut Desk, book: &mut [u8])
        requires { CanBeDone self.old.state (length book.old) (plan transaction.now desk.old.booked) }
        ensures ledger { self.new ≡ in_state self.old (after_plan self.old.state (plan transaction.now desk.old.booked)) }
        ensures book { book.new ≡ record_after self.old.state.rows (rows_of transaction.now desk.old.booked.1) (header_of (P.Policy.order self.old.policy) (after_plan self.old.state (plan transaction.now desk.old.booked))) book.old }
    {
        let written = self.rows;
        self.take_over(transaction, &desk.booked);
        desk.booked.entries.list_rows(transaction, &mut desk.rows);
        append_rows(book, written, desk.rows.as_slice(), self.header()).unwrap();
    }

    // Settles the draft of a slip and records it; refused, the slip comes back. The desk is lent: what it holds, before and after,
    // says nothing.
    pub fn settle(
        &mut self,
        slip: Slip,
        book: &mut [u8],
        desk: &mut Desk,
    ) -> Result<u32, (Slip, Fault)>
        ensures answer { (outcome_with_slip (λ number. Settled number) result, self.new) ≡ carried_out P.Policy.order self.old (settling slip.number (length book.old)) }
        ensures slip { GivesBack slip result }
        ensures book { book.new ≡ record_after_call (P.Policy.order self.old.policy) self.old.state (settling slip.number (length book.old)) book.old }
    {
        match self.check_settling(&slip, book.len(), &mut desk.booked) {
            Err(fault) => Err((slip, fault)),
            Ok(transaction) => {
                let Slip { number: _ } = slip;
                self.carry_out(&transaction, desk, book);
                Ok(transaction.number)
            }
        }
    }
}
