// Names of commodities and accounts, as fields of a line. Each reader is one chain, and says of its own names when it
// accepts: one that takes the test and the fault would have to be told what the test decides, and come out longer.
ghost use Rattle.std.specs.Prelude.{◌≡◌, MatchResult};
ghost use Rattle.values.specs.Spelling.{IsCommodityName, IsAccountName};
ghost use Rattle.fields.specs.Results.{map_ok};
ghost use Rattle.fields.specs.Spots.{seen, commodity_at, account_at};

use crate::fault::FieldFault;
use crate::field::Field;
use values::names::{is_account_name, is_commodity_name};

// A commodity's name.
#[tactic(auto, unfolding(crate::specs::Spots::commodity_at))]
pub fn read_commodity_name<'a>(field: Field<'a>) -> Result<Field<'a>, FieldFault>
    ensures value { map_ok seen result ≡ commodity_at (seen field.entry) }
    ensures exactly { MatchResult result (λ _. IsCommodityName field.entry.text.now) (λ _. IsCommodityName field.entry.text.now → ⊥) }
{
    is_commodity_name(field.text)
        .then_some(field)
        .ok_or(FieldFault::Commodity(field.place))
}

// An account's name.
#[tactic(auto, unfolding(crate::specs::Spots::account_at))]
pub fn read_account_name<'a>(field: Field<'a>) -> Result<Field<'a>, FieldFault>
    ensures value { map_ok seen result ≡ account_at (seen field.entry) }
    ensures exactly { MatchResult result (λ _. IsAccountName field.entry.text.now) (λ _. IsAccountName field.entry.text.now → ⊥) }
{
    is_account_name(field.text)
        .then_some(field)
        .ok_or(FieldFault::Account(field.place))
}
