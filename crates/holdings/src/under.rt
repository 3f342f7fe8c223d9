// What the accounts hold that lie under a name, asked of plain balances and open lots.
ghost use Rattle.std.specs.Prelude.{◌≡◌, ◌≤◌, true, pos, if◌then◌else◌, unsigned_abs};
ghost use Rattle.values.specs.Names.{lies_under};
ghost use Rattle.stock.specs.Kept.{WellKept};
ghost use Rattle.booking.specs.Balances.{all_within};
ghost use Rattle.books.specs.Holdings.{holding, holdings_under};
ghost use Rattle.chart.specs.Changes.{WithinLimits};
ghost use Rattle.holdings.specs.Bounds.{largest_holding};
ghost use Rattle.holdings.specs.Pairs.{books_of};

use crate::account::holding;
use balances::table::Balances;
use books::account::Account;
use chart::table::Chart;
use stock::table::LotTable;
use values::names::is_under;

// The holding of an account of a number if it lies under a name, else 0.
fn holding_if_under(
    balances: &Balances,
    lots: &LotTable,
    account: &Account,
    number: u16,
    name: &[u8],
    commodity: u8,
) -> i64
    ensures value { result ≡ (if lies_under account.now.name name.now then holding (books_of balances.now lots.now) number commodity else pos 0) }
    ensures small { unsigned_abs result ≤ largest_holding }
{
    if is_under(account.name.as_slice(), name) {
        holding(balances, lots, number, commodity)
    } else {
        0
    }
}

// The holdings, in a commodity, of the accounts of a chart that lie under a name.
pub fn holdings_under(
    chart: &Chart,
    balances: &Balances,
    lots: &LotTable,
    name: &[u8],
    commodity: u8,
) -> i64
    ensures value { result ≡ holdings_under (books_of balances.now lots.now) name.now commodity 1 chart.now.accounts }
    ensures chart { WithinLimits chart.now }
    ensures within { all_within balances.now ≡ true }
    ensures kept { WellKept lots.now }
{
    // what balances and lots keep is told also where no account lies under the name
    let _ = balances.as_slice();
    let _ = lots.lots();
    let mut sum = 0;
    // no `sum`: it would owe that each sum on the way fits, which hangs on how many accounts there are
    for (number, account) in (1u16..).zip(chart.account_list()) {
        sum += holding_if_under(balances, lots, account, number, name, commodity);
    }
    sum
}
