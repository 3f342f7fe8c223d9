// Figures as they are printed, whatever they are: holdings, and what the bytes of a record say, are not known to be amounts and dates.
ghost use Rattle.std.specs.Prelude.{◌≡◌, ◌≤◌, Some};
ghost use Rattle.listing.specs.Figures.{digit, hundredths_text, day_text};
ghost use Rattle.std.specs.Fmt.{WritesOnOk};

use std::fmt;

// The digit of a number that counts a unit of 1, 10, 100 and so on.
fn digit(unit: u64, n: u64) -> u8
    requires { 1 ≤ unit }
    ensures { result ≡ digit unit n }
{
    b'0' + (n / unit % 10) as u8
}

// What is written has to be UTF-8; figures, and all that a line may hold, are ASCII.
pub(crate) fn write_bytes<W: fmt::Write>(f: &mut fmt::Formatter<W>, bytes: &[u8]) -> fmt::Result
    ensures writes { WritesOnOk W.Write.write_str_gives f.old result bytes.now f.new }
{
    f.write_str(str::from_utf8(bytes).map_err(|_| fmt::Error)?)
}

// With two decimals.
#[derive(Clone, Copy)]
pub struct Hundredths(pub i64);

impl fmt::Display for Hundredths {
    ghost output = { λ h. Some (hundredths_text h.0) };

    fn fmt<W: fmt::Write>(&self, f: &mut fmt::Formatter<W>) -> fmt::Result {
        let size = self.0.unsigned_abs();
        if self.0 < 0 {
            f.write_str("-")?;
        }
        write!(f, "{}", size / 100)?;
        write_bytes(f, &[b'.', digit(10, size), digit(1, size)])
    }
}

// As YYYY-MM-DD.
#[derive(Clone, Copy)]
pub struct Day(pub u32);

impl fmt::Display for Day {
    ghost output = { λ d. Some (day_text d.0) };

    fn fmt<W: fmt::Write>(&self, f: &mut fmt::Formatter<W>) -> fmt::Result {
        let n = u64::from(self.0);
        write_bytes(
            f,
            &[
                digit(10_000_000, n),
                digit(1_000_000, n),
                digit(100_000, n),
                digit(10_000, n),
                b'-',
                digit(1000, n),
                digit(100, n),
                b'-',
                digit(10, n),
                digit(1, n),
            ],
        )
    }
}
