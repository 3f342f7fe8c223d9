// What amounts and lots weigh: ten-thousandths of a commodity, unrounded. An i128 holds every product here exactly.
#![tactic(auto)]

ghost use Rattle.std.specs.Prelude.{◌≡◌, ◌*◌, ◌≤◌, true, pos, nat_abs};
ghost use Rattle.lots.specs.Rows.{in_range};
ghost use Rattle.weights.specs.Weights.{plain_weight, purchase_weight, draw_weight};
ghost use Rattle.weights.specs.Sizes.{largest_weight};

use lots::lot::Lot;
use lots::rows::Key;
use matching::wanted::Draw;

#[derive(Clone, Copy, PartialEq, Eq, Debug)]
pub struct Weight {
    pub commodity: u8,
    pub amount: i128,
}

// Hundredths of units times a cost in hundredths.
fn at_cost(units: u32, cost: u32) -> i128
    ensures exact { result ≡ pos (units * cost) }
    ensures size { nat_abs result ≤ largest_weight }
{
    i128::from(u64::from(units) * u64::from(cost))
}

// A plain amount weighs its own hundredths, in its commodity.
pub fn plain_weight(amount: i32, commodity: u8) -> Weight
    ensures { result ≡ plain_weight amount commodity }
{
    Weight {
        commodity,
        amount: i128::from(amount) * 100,
    }
}

// So many units of a key weigh units times cost, in the cost commodity.
pub fn weight_of_key(key: &Key, units: u32) -> Weight
    ensures weighed { result ≡ purchase_weight key.now units }
    ensures size { nat_abs result.amount ≤ largest_weight }
{
    Weight {
        commodity: key.cost.commodity,
        amount: at_cost(units, key.cost.number),
    }
}

// A purchase weighs its units, and a draw weighs them below zero.
pub fn purchase_weight(bought: &Lot) -> Weight
    ensures weighed { result ≡ purchase_weight bought.now.key bought.now.units }
    ensures size { nat_abs result.amount ≤ largest_weight }
    ensures ranges { in_range bought.now ≡ true }
{
    let row = bought.row();
    weight_of_key(&row.key, row.units)
}

pub fn draw_weight(draw: &Draw) -> Weight
    ensures weighed { result ≡ draw_weight draw.now }
    ensures size { nat_abs result.amount ≤ largest_weight }
{
    let weight = weight_of_key(&draw.lot.key, draw.units);
    Weight {
        amount: -weight.amount,
        ..weight
    }
}
