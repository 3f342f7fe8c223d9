// Places for outcomes, which a caller lends.
ghost use Rattle.std.specs.Prelude.{◌≡◌, ◌+◌, ◌<◌, length};
ghost use Rattle.reader.specs.Readings.{listed};
ghost use Rattle.journals.specs.Places.{place_one};

use books::outcome::Outcome;

// One outcome more, behind `count` others, if there is a place for it; answers how many there are.
pub fn place(places: &mut [Outcome], count: usize, outcome: Option<Outcome>) -> usize
    requires { count < 1000000 }
    ensures count { result ≡ count + length (listed outcome) }
    ensures placed { places.new ≡ place_one places.old count outcome }
{
    let Some(outcome) = outcome else {
        return count;
    };
    if count < places.len() {
        places[count] = outcome;
    }
    count + 1
}
