// Tests of plain arguments: dates, names and numbers.
ghost use Rattle.std.specs.Prelude.{not};
ghost use Rattle.books.specs.Checks.{Checks};
ghost use Rattle.refusal.specs.declared.Refusal.TheVariants.{BadDate, BadAccountName, BadCommodityName, BadNumber};
ghost use Rattle.books.specs.Conditions.{bad_date, bad_account_name, bad_commodity_name, bad_number};

use refusal::Refusal;
use values::amount::Amount;
use values::date::Date;
use values::names::{is_account_name, is_commodity_name};

// The refusal, unless a test is passed.
pub fn refuse_unless(passed: bool, refusal: Refusal) -> Result<(), Refusal>
    ensures { Checks refusal (not passed) result }
{
    if passed { Ok(()) } else { Err(refusal) }
}

pub fn check_date(date: u32) -> Result<(), Refusal>
    ensures { Checks BadDate (bad_date date) result }
{
    refuse_unless(Date::new(date).is_some(), Refusal::BadDate)
}

pub fn check_account_name(name: &[u8]) -> Result<(), Refusal>
    ensures { Checks BadAccountName (bad_account_name name.now) result }
{
    refuse_unless(is_account_name(name), Refusal::BadAccountName)
}

pub fn check_commodity_name(name: &[u8]) -> Result<(), Refusal>
    ensures { Checks BadCommodityName (bad_commodity_name name.now) result }
{
    refuse_unless(is_commodity_name(name), Refusal::BadCommodityName)
}

pub fn check_number(number: i32) -> Result<(), Refusal>
    ensures { Checks BadNumber (bad_number number) result }
{
    refuse_unless(Amount::new(number).is_some(), Refusal::BadNumber)
}
