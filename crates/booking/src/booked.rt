// What a draft comes to: the open lots after it, and its entries. Postings are booked one after another,
// each upon the lots that the one before left; the first that is refused ends it.
ghost use Rattle.std.specs.Prelude.{◌≡◌, ◌+◌, ◌≤◌, ◌<◌, [], true, length, OnOk};
ghost use Rattle.lots.specs.Rows.{in_range};
ghost use Rattle.stock.specs.Promises.{map_ok};
ghost use Rattle.stock.specs.Tables.{no_lots};
ghost use Rattle.booking.specs.Postings.{lot_date};
ghost use Rattle.booking.specs.Ranges.{posting_in_range};
ghost use Rattle.booking.specs.Stages.{book_purchase, book_reduction, book_kind, book_posting, IsKept, Grows, HasRoom, HasSerials};

use crate::entries::Entries;
use crate::entry::EntryKind;
use crate::posting::{Posting, PostingKind};
use lots::lot::Lot;
use lots::policy::Policy;
use lots::rows::{Key, LotRow};
use matching::wanted::{Reduction, Wanted};
use refusal::{Fault, Refusal};
use std::marker::Model;
use stock::table::LotTable;
use stock::table::reduction::{Draws, no_draws};

#[derive(Drop)]
pub struct Booked {
    pub lots: LotTable,
    pub entries: Entries,
    // of the last reduction: kept, so that no reduction makes a list
    draws: Draws,
}

// Clauses see the lots and the entries as a pair.
impl Model for Booked {
    ghost use Rattle.std.specs.Prelude.{List};
    ghost use Rattle.stock.specs.Tables.{Table};
    ghost use Rattle.booking.specs.declared.entry.Entry.{Entry};

    ghost Value = { Table × List Entry };

    ghost view = { λ b. (b.lots, b.entries) };
}

// What is asked of each posting is no invariant: it holds only while postings are left to book.
impl Booked {
    // No lot, and no entry.
    pub fn new() -> Booked
        ensures { result ≡ (no_lots, []) }
    {
        Booked {
            lots: LotTable::new(),
            entries: Entries::new(),
            draws: no_draws(),
        }
    }

    // These lots, and no entry.
    pub(crate) fn start(&mut self, lots: &LotTable)
        ensures started { self.new ≡ (lots.now, []) }
        ensures few { length self.new.0.lots ≤ 256 }
        ensures kept { IsKept self.new }
    {
        self.lots.copy_from(lots);
        self.entries.clear();
    }

    #[tactic(auto, using(crate::proofs::Passing::pass_entered))]
    fn purchase(&mut self, line: u32, key: Key, units: u32) -> Result<(), Refusal>
        requires ranged { in_range (record { key = key; units = units; serial = 0 }) ≡ true }
        requires room { HasRoom self.old }
        requires serials { HasSerials self.old }
        ensures defined { map_ok (λ _. self.new) result ≡ book_purchase line key units self.old }
        ensures grows { Grows self.old self.new }
        ensures entered { OnOk result (length self.old.1 < length self.new.1) }
        ensures keeps { IsKept self.old → IsKept self.new }
    {
        let bought = Lot::new(LotRow {
            key,
            units,
            serial: 0,
        })
        .unwrap();
        let serial = self.lots.purchase(&bought)?;
        self.entries
            .enter(line, EntryKind::Bought { key, units, serial });
        Ok(())
    }

    #[tactic(auto, using(crate::proofs::Passing::pass_drawn))]
    fn reduce<P: Policy>(&mut self, line: u32, asked: &Reduction<P>) -> Result<(), Refusal>
        requires some { 1 ≤ asked.now.units }
        requires room { HasRoom self.old }
        ensures defined { map_ok (λ _. self.new) result ≡ book_reduction (P.Policy.order asked.now.policy.now) line asked.now.wanted asked.now.units self.old }
        ensures grows { Grows self.old self.new }
        ensures entered { OnOk result (length self.old.1 < length self.new.1) }
        ensures keeps { IsKept self.old → IsKept self.new }
    {
        self.lots.reduce(asked, &mut self.draws)?;
        self.entries.enter_draws(line, self.draws.as_slice());
        Ok(())
    }

    // A posting of each kind. Policy and day are passed side by side and make no struct:
    // the one is the ledger's and the other the draft's, and nothing but these calls would name the pair.
    #[tactic(auto, using(crate::proofs::Passing::pass_entered))]
    fn book_kind<P: Policy>(
        &mut self,
        policy: &P,
        day: u32,
        posting: &Posting,
    ) -> Result<(), Refusal>
        requires ranged { posting_in_range posting.now ≡ true }
        requires room { HasRoom self.old }
        requires serials { HasSerials self.old }
        ensures defined { map_ok (λ _. self.new) result ≡ book_kind (P.Policy.order policy.now) day posting.now.line posting.now.account posting.now.kind self.old }
        ensures grows { Grows self.old self.new }
        ensures entered { OnOk result (length self.old.1 < length self.new.1) }
        ensures keeps { IsKept self.old → IsKept self.new }
    {
        let Posting {
            line,
            account,
            kind,
        } = *posting;
        match kind {
            PostingKind::Blank => {
                self.entries.enter(line, EntryKind::Unfilled { account });
                Ok(())
            }
            PostingKind::Plain { amount, commodity } => {
                let kind = EntryKind::PlainAmount {
                    account,
                    amount,
                    commodity,
                };
                self.entries.enter(line, kind);
                Ok(())
            }
            // the date of the braces, else the transaction's
            PostingKind::Purchase {
                units,
                commodity,
                cost,
                date,
            } => {
                let key = Key {
                    account,
                    commodity,
                    cost,
                    date: date.unwrap_or(day),
                };
                self.purchase(line, key, units)
            }
            PostingKind::Reduction {
                units,
                commodity,
                cost,
                date,
            } => {
                let wanted = Wanted {
                    account,
                    commodity,
                    cost,
                    date,
                };
                self.reduce(
                    line,
                    &Reduction {
                        policy,
                        wanted,
                        units,
                    },
                )
            }
        }
    }

    // A refusal bears the posting's line.
    pub(crate) fn book_posting<P: Policy>(
        &mut self,
        policy: &P,
        day: u32,
        posting: &Posting,
    ) -> Result<(), Fault>
        requires ranged { posting_in_range posting.now ≡ true }
        requires room { HasRoom self.old }
        requires serials { HasSerials self.old }
        ensures defined { map_ok (λ _. self.new) result ≡ book_posting (P.Policy.order policy.now) day posting.now self.old }
        ensures grows { Grows self.old self.new }
        ensures entered { OnOk result (length self.old.1 < length self.new.1) }
        ensures keeps { IsKept self.old → IsKept self.new }
    {
        self.book_kind(policy, day, posting)
            .map_err(|refusal| refusal.on(posting.line))
    }
}
