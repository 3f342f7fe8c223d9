// The ledger: its calls and its questions, for any booking policy. What each answers and leaves is defined in crate `books`.
// What any list of them leaves is in crate `runs`.
#![tactic(auto)]

use crate::rank::Rank;
use booking::draft::Draft;
use chart::table::Chart;
use holdings::held::Holdings;
use std::marker::Model;

pub mod closing;
pub mod dated;
pub mod desk;
pub mod drafts;
mod fault;
mod lookups;
pub mod making;
pub mod naming;
pub mod performing;
pub mod posting;
pub mod questions;
pub mod rank;
pub mod recording;
pub mod settling;
pub mod slip;

// Everything is kept in place: no call allocates.
#[derive(Drop)]
pub struct Ledger<P> {
    policy: P,
    chart: Chart,
    holdings: Holdings,
    draft: Option<Draft>,
    last_date: u32,
    last_rank: Rank,
    transactions: u32,
    rows: u32,
}

// Clauses see a ledger as its policy and its state. Of rows at most 60,000 are ever written; each settled transaction has one
// at least, and each lot that was opened has one, so that no count runs out of numbers.
impl<P> Model for Ledger<P> {
    ghost use Rattle.std.specs.Prelude.{◌+◌, ◌≤◌};
    ghost use Rattle.record.specs.Layout.{most_rows};
    ghost use Rattle.ledger.specs.Kept.{Kept};
    ghost use Rattle.ledger.specs.Ranks.{rank_number};

    ghost Value = { Kept P };

    ghost view = { λ l. record {
      policy = l.policy;
      state = record {
        names = l.chart;
        books = l.holdings;
        draft = l.draft;
        last_date = l.last_date;
        last_rank = rank_number l.last_rank;
        transactions = l.transactions;
        rows = l.rows;
      };
    } };

    ghost invariant = { λ l. (l.transactions ≤ l.rows) × ((l.rows ≤ most_rows) × (l.holdings.table.next ≤ l.rows + 1)) };
}
