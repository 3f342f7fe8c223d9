// The law over runs: what any list of calls on a new ledger leaves, for every policy that keeps the laws.
#![tactic(auto)]

ghost use Rattle.law.specs.Laws.{BooksStand, BooksStandUnder};
ghost use Rattle.law.specs.Records.{RecordStands, RecordStandsUnder};
ghost use Rattle.law.specs.Worked.{WorkedRun};

use lots::policy::Policy;

// Books balance, balances and lots are what was settled, and reductions draw by the policy.
#[tactic(auto, using(crate::proofs::Runs::books_stand))]
pub fn books_stand()
    ensures { BooksStand }
{}

// One record that is handed from call to call holds the header, exactly the rows of all settled transactions in order, and the other bytes as they were.
#[tactic(auto, using(crate::proofs::RunRecords::record_stands))]
pub fn record_stands()
    ensures { RecordStands }
{}

// A run that is worked out by hand: what each call answers, the lots, balances and entries, and every byte of a record.
pub fn worked_run()
    ensures { WorkedRun }
{}

// Books and record stand under any implementation of a policy.
pub fn books_stand_under<P: Policy>(policy: &P)
    ensures books { BooksStandUnder (P.Policy.order policy.now) }
    ensures recorded { RecordStandsUnder (P.Policy.order policy.now) }
{
    let _ = policy;
}
