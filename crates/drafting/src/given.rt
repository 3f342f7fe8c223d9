// Tests of what is given for a posting, in the order in which a journal writes it.
ghost use Rattle.std.specs.Prelude.{◌≡◌, true, OnOk, IfSome};
ghost use Rattle.refusal.specs.Refusing.{first_met, unless};
ghost use Rattle.values.specs.Amounts.{is_amount};
ghost use Rattle.books.specs.Given.{given_cost, given_braces, given_amount};
ghost use Rattle.books.specs.Refusals.{cost_fields, braces_fields, amount_fields};

use crate::checks::{
    check_account_name, check_commodity_name, check_date, check_number, refuse_unless,
};
use books::call::{GivenAmount, GivenBraces, GivenCost};
use refusal::Refusal;

// A cost: its number, its minus, its commodity.
fn check_cost(cost: GivenCost<'_>) -> Result<(), Refusal>
    ensures checked { result ≡ unless (first_met (cost_fields (given_cost cost.entry))) tt }
    ensures ranged { OnOk result (is_amount cost.entry.number ≡ true) }
{
    check_number(cost.number)?;
    refuse_unless(cost.number >= 0, Refusal::BadBraces)?;
    check_commodity_name(cost.commodity)
}

// What stands between braces: a cost, then a date.
fn check_braces(braces: GivenBraces<'_>) -> Result<(), Refusal>
    ensures checked { result ≡ unless (first_met (braces_fields (given_braces braces.entry))) tt }
    ensures ranged { OnOk result (IfSome braces.entry.cost (λ c. is_amount c.number ≡ true)) }
{
    braces.cost.map_or(Ok(()), check_cost)?;
    braces.date.map_or(Ok(()), check_date)
}

// What is posted to an account: its name, the number, the commodity, then the braces.
pub fn check_amount(account: &[u8], amount: GivenAmount<'_>) -> Result<(), Refusal>
    ensures checked { result ≡ unless (first_met (amount_fields account.now (given_amount amount.entry))) tt }
    ensures ranged { OnOk result (is_amount amount.entry.number ≡ true) }
    ensures cost { OnOk result (IfSome amount.entry.braces (λ b. IfSome b.cost (λ c. is_amount c.number ≡ true))) }
{
    check_account_name(account)?;
    check_number(amount.number)?;
    check_commodity_name(amount.commodity)?;
    amount.braces.map_or(Ok(()), check_braces)
}
