// The arguments of a call from what a line says.
ghost use Rattle.std.specs.Prelude.{◌≡◌};
ghost use Rattle.books.specs.Given.{given_cost, given_braces, given_amount};
ghost use Rattle.lines.specs.Said.{cost_said, braces_said, units_said};
ghost use Rattle.reader.specs.Asked.{cost_given, braces_given, units_given};

use books::call::{GivenAmount, GivenBraces, GivenCost};
use lines::directive::{Braces, Cost, Units};

fn cost<'a>(cost: Cost<'a>) -> GivenCost<'a>
    ensures { given_cost result ≡ cost_given (cost_said cost.entry) }
{
    GivenCost {
        number: cost.amount.hundredths(),
        commodity: cost.commodity.text,
    }
}

fn braces<'a>(braces: Braces<'a>) -> GivenBraces<'a>
    ensures { given_braces result ≡ braces_given (braces_said braces.entry) }
{
    GivenBraces {
        cost: braces.cost.map(cost),
        date: braces.date.map(|date| date.number()),
    }
}

pub fn amount<'a>(units: Units<'a>) -> GivenAmount<'a>
    ensures { given_amount result ≡ units_given (units_said units.entry) }
{
    GivenAmount {
        number: units.amount.hundredths(),
        commodity: units.commodity.text,
        braces: units.braces.map(braces),
    }
}
