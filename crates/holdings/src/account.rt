// What one account holds, asked of plain balances and open lots.
ghost use Rattle.std.specs.Prelude.{◌≡◌, ◌≤◌, true, pos, None, nat_eq, unsigned_abs};
ghost use Rattle.std.specs.List.{list_any};
ghost use Rattle.matching.specs.Matching.{matches, units_matching};
ghost use Rattle.booking.specs.Balances.{balance_in, all_within};
ghost use Rattle.booking.specs.Postings.{wanted_lots};
ghost use Rattle.booking.specs.Weighing.{is_zero};
ghost use Rattle.stock.specs.Tables.{Table};
ghost use Rattle.stock.specs.Kept.{WellKept};
ghost use Rattle.books.specs.Holdings.{holding, no_plain_balance, is_empty_account};
ghost use Rattle.holdings.specs.Bounds.{most_in_lots, largest_holding};
ghost use Rattle.holdings.specs.Pairs.{books_of};

use balances::table::Balances;
use booking::limits::MOST_COMMODITIES;
use lots::rows::LotRow;
use matching::search::units_matching;
use matching::wanted::Wanted;
use stock::table::LotTable;

// The units of an account's open lots of a commodity.
#[tactic(auto, using(crate::proofs::Bounds::kept_few))]
fn units_in_lots(lots: &LotTable, account: u16, commodity: u8) -> i64
    ensures value { result ≡ pos (units_matching (matches (wanted_lots account commodity None None)) lots.now.lots) }
    ensures small { unsigned_abs result ≤ most_in_lots }
    ensures kept { WellKept lots.now }
{
    let wanted = Wanted {
        account,
        commodity,
        cost: None,
        date: None,
    };
    units_matching(lots.lots(), &wanted) as i64
}

// An account's plain balance and the units of its open lots.
pub fn holding(balances: &Balances, lots: &LotTable, account: u16, commodity: u8) -> i64
    ensures value { result ≡ holding (books_of balances.now lots.now) account commodity }
    ensures small { unsigned_abs result ≤ largest_holding }
    ensures within { all_within balances.now ≡ true }
    ensures kept { WellKept lots.now }
{
    balances.balance(account, commodity) + units_in_lots(lots, account, commodity)
}

// Whether one of these lots is the account's.
fn has_lot(rows: &[LotRow], account: u16) -> bool
    ensures { result ≡ list_any (λ row. nat_eq row.key.account account) rows.now }
{
    rows.iter().any(|row| row.key.account == account)
}

fn is_zero(balances: &Balances, account: u16, commodity: u8) -> bool
    ensures { result ≡ is_zero (balance_in balances.now account commodity) }
{
    balances.balance(account, commodity) == 0
}

// Whether the plain balances of an account are 0 in every commodity. Lots have no part in it.
fn no_plain_balance(balances: &Balances, account: u16) -> bool
    ensures { (lots : Table) → result ≡ no_plain_balance (books_of balances.now lots) account 16 }
{
    (1..=MOST_COMMODITIES as u8)
        .rev()
        .all(|commodity| is_zero(balances, account, commodity))
}

// Whether an account has no open lot and no plain balance but 0.
pub fn is_empty_account(balances: &Balances, lots: &LotTable, account: u16) -> bool
    ensures value { result ≡ is_empty_account (books_of balances.now lots.now) account }
    ensures within { all_within balances.now ≡ true }
    ensures kept { WellKept lots.now }
{
    // what balances keep is told also where the account has a lot
    let _ = balances.as_slice();
    !has_lot(lots.lots(), account) && no_plain_balance(balances, account)
}
