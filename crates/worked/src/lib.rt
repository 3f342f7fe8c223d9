// Worked cases: what the definitions of the other crates give at values that a bookkeeper can check by hand.
#![tactic(auto)]

ghost use Rattle.std.specs.Prelude.{◌≡◌, length};
ghost use Rattle.worked.specs.Cases.{cases, Worked};

// That the definitions give each worked case its value is proved here; the number is how many cases there are.
pub fn worked_cases() -> u32
    ensures worked { Worked }
    ensures count { result ≡ length cases }
{
    19
}
