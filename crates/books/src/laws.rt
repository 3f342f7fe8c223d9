// What holds of every call upon every state, for every policy.
ghost use Rattle.books.specs.Steps.{AnswersFirstMet, TablesInListOrder};

// The answer is the first refusal of its table that the call meets, and then nothing changes; a call that meets none is carried out.
#[tactic(auto, using(crate::proofs::Firsts::answers_first_met))]
pub fn answers_first_met()
    ensures { AnswersFirstMet }
{}

// The table of each call stands in the order of the list of refusals.
#[tactic(auto, using(crate::proofs::Firsts::tables_in_list_order))]
pub fn tables_in_list_order()
    ensures { TablesInListOrder }
{}
