// A whole number of hundredths, from -999,999.99 to 999,999.99.
ghost use Rattle.std.specs.Prelude.{◌≡◌, pos, negsuc, ◌≤ℤ◌, MatchOption};
ghost use Rattle.values.specs.Amounts.{InRange};

// The largest amount.
const LARGEST: i32 = 99_999_999;

#[derive(Clone, Copy, Debug, PartialEq, Eq, PartialOrd, Ord)]
pub struct Amount {
    hundredths: i32,
    ghost ranged: { (negsuc 99999998 ≤ℤ hundredths) × (hundredths ≤ℤ pos 99999999) },
}

impl Amount {
    // The amount of so many hundredths, if it is one.
    pub fn new(hundredths: i32) -> Option<Amount>
        ensures { MatchOption result (InRange hundredths → ⊥) (λ a. InRange hundredths × (a.hundredths ≡ hundredths)) }
    {
        if (-LARGEST..=LARGEST).contains(&hundredths) {
            Some(Amount { hundredths })
        } else {
            None
        }
    }

    pub fn hundredths(self) -> i32
        ensures { result ≡ self.hundredths }
    {
        self.hundredths
    }
}
