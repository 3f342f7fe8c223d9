// Any list of calls upon a new ledger, with the law over runs.
#![tactic(auto)]

ghost use Rattle.std.specs.Prelude.{◌≡◌, ◌≤◌, ◌++◌, length, take, drop};
ghost use Rattle.books.specs.States.{empty_ledger};
ghost use Rattle.books.specs.Steps.{outcomes, state_after};
ghost use Rattle.books.specs.Recording.{record_after_calls};
ghost use Rattle.ledger.specs.Kept.{in_state};
ghost use Rattle.law.specs.Laws.{Lawful};
ghost use Rattle.law.specs.Records.{RecordHolds};
ghost use Rattle.runs.specs.Runs.{given_calls, calls_run, answers_run};

use books::call::Call;
use books::outcome::Outcome;
use ledger::Ledger;
use ledger::desk::Desk;
use lots::policy::Policy;

fn perform_all<P: Policy>(
    ledger: &mut Ledger<P>,
    calls: &[Call<'_>],
    answers: &mut [Outcome],
    book: &mut [u8],
)
    requires { length calls.now ≤ length answers.old }
    ensures outcomes { answers.new ≡ outcomes (P.Policy.order ledger.old.policy) ledger.old.state (given_calls (length book.old) calls.now) ++ drop (length calls.now) answers.old }
    ensures ledger { ledger.new ≡ in_state ledger.old (state_after (P.Policy.order ledger.old.policy) ledger.old.state (given_calls (length book.old) calls.now)) }
    ensures book { book.new ≡ record_after_calls (P.Policy.order ledger.old.policy) ledger.old.state (given_calls (length book.old) calls.now) book.old }
{
    let mut desk = Desk::new();
    for (i, call) in calls.iter().enumerate() {
        answers[i] = ledger.perform(*call, book, &mut desk);
    }
}

// Carries out calls, one after another, on a new ledger, and answers the ledger after the last. As many are carried out as there
// are places for outcomes. All are lent the one record, a settling and the header call so many bytes of it as they say.
pub fn run<P: Policy>(
    policy: P,
    calls: &[Call<'_>],
    answers: &mut [Outcome],
    book: &mut [u8],
) -> Ledger<P>
    ensures lawful { Lawful (P.Policy.order policy) (calls_run (length answers.old) (length book.old) calls.now) (answers_run calls.now answers.new) result.state }
    ensures recorded { RecordHolds (P.Policy.order policy) (calls_run (length answers.old) (length book.old) calls.now) (answers_run calls.now answers.new) book.old book.new }
    ensures outcomes { answers.new ≡ outcomes (P.Policy.order policy) empty_ledger (calls_run (length answers.old) (length book.old) calls.now) ++ drop (length (take (length answers.old) calls.now)) answers.old }
    ensures ledger { result ≡ record { policy = policy; state = state_after (P.Policy.order policy) empty_ledger (calls_run (length answers.old) (length book.old) calls.now) } }
    ensures book { book.new ≡ record_after_calls (P.Policy.order policy) empty_ledger (calls_run (length answers.old) (length book.old) calls.now) book.old }
{
    let mut ledger = Ledger::new(policy);
    let places = answers.len().min(calls.len());
    perform_all(&mut ledger, &calls[..places], answers, book);
    ledger
}
