// A Gregorian day of the years 1970 to 2199, by its number: year * 10,000 + month * 100 + day.
ghost use Rattle.std.specs.Prelude.{◌≡◌, true, false, is_some, Decides, MatchOption};
ghost use Rattle.values.specs.Calendar.{is_calendar_day, is_day, month_length, DayNumber};

#[derive(Clone, Copy, Debug, PartialEq, Eq, PartialOrd, Ord)]
pub struct Date {
    number: u32,
    ghost calendar: { is_day number ≡ true },
}

// How many days a month has, January being 1.
pub fn month_days(year: u32, month: u32) -> u32
    ensures { result ≡ month_length year month }
{
    match month {
        2 => if year % 4 == 0 && (year % 100 != 0 || year % 400 == 0) {
            29
        } else {
            28
        },
        4 | 6 | 9 | 11 => 30,
        _ => 31,
    }
}

fn is_calendar_day(year: u32, month: u32, day: u32) -> bool
    ensures { result ≡ is_calendar_day year month day }
{
    matches!((year, month), (1970..=2199, 1..=12)) && (1..=month_days(year, month)).contains(&day)
}

impl Date {
    // The date of this number, if it is the number of a day.
    pub fn new(number: u32) -> Option<Date>
        ensures value { MatchOption result (is_day number ≡ false) (λ d. (is_day number ≡ true) × (d.number ≡ number)) }
        ensures exactly { Decides (is_some result) (DayNumber number) }
    {
        if is_calendar_day(number / 10_000, number / 100 % 100, number % 100) {
            Some(Date { number })
        } else {
            None
        }
    }

    pub fn number(self) -> u32
        ensures { result ≡ self.number }
    {
        self.number
    }
}
