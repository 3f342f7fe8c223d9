// Numbers in base ten.
ghost use Rattle.std.specs.Prelude.{◌≡◌, ◌^◌, ◌<◌, ◌≤◌, length, IfSome};
ghost use Rattle.fields.specs.Decimal.{decimal};

// The number that at most nine digits write.
pub(crate) fn read_digits(text: &[u8]) -> Option<u32>
    requires { length text.now ≤ 9 }
    ensures value { result ≡ decimal text.now }
    ensures bound { IfSome result (λ n. n < 10 ^ length text.now) }
{
    // no `try_fold`: tried, and no proof closed, since that there is room for each digit hangs on how many were read
    let mut n: u32 = 0;
    for b in text {
        n = n * 10 + char::from(*b).to_digit(10)?;
    }
    Some(n)
}
