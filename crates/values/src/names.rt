// The names of commodities and accounts.
ghost use Rattle.std.specs.Prelude.{◌≡◌, Decides};
ghost use Rattle.values.specs.Names.{is_commodity_name, is_part, is_root, all_parts, is_account_name, lies_under, split_at};
ghost use Rattle.values.specs.Spelling.{IsCommodityName, IsAccountName, LiesUnder};

use byte_text::{ByteClass, after, all_of, byte_at, front, run_of};

// The most bytes of a name of either kind.
pub const LONGEST_NAME: usize = 48;

// Whether a text is a commodity's name: 2 to 8 bytes A to Z or 0 to 9, the first a letter.
#[tactic(auto, unfolding(crate::specs::Names::is_commodity_name))]
pub fn is_commodity_name(text: &[u8]) -> bool
    ensures value { result ≡ is_commodity_name text.now }
    ensures exactly { Decides result (IsCommodityName text.now) }
{
    (2..=8).contains(&text.len())
        && byte_at(text, 0).is_ascii_uppercase()
        && all_of(ByteClass::CommodityName, text)
}

// A part of an account's name behind the first.
fn is_name_part(text: &[u8]) -> bool
    ensures { result ≡ is_part text.now }
{
    ByteClass::CommodityName.has(byte_at(text, 0)) && all_of(ByteClass::AccountPart, text)
}

fn is_root_name(text: &[u8]) -> bool
    ensures { result ≡ is_root text.now }
{
    matches!(
        text,
        b"Assets" | b"Liabilities" | b"Equity" | b"Income" | b"Expenses"
    )
}

// Whether a text is made of parts joined by colons, at most so many.
fn are_parts(text: &[u8], most: usize) -> bool
    ensures { result ≡ all_parts most (split_at 58 text.now) }
{
    text.split(|b| *b == b':')
        .enumerate()
        .all(|(i, part)| i < most && is_name_part(part))
}

// Whether a text is an account's name: at most 48 bytes, two to six parts joined by colons, the first
// one of the five roots.
pub fn is_account_name(text: &[u8]) -> bool
    ensures value { result ≡ is_account_name text.now }
    ensures exactly { Decides result (IsAccountName text.now) }
{
    // first, so that a text of any length costs no more than the longest name
    if text.len() > LONGEST_NAME {
        return false;
    }
    let n = run_of(ByteClass::Except(b':'), text);
    if n == text.len() {
        return false;
    }
    is_root_name(front(text, n)) && are_parts(after(text, n + 1), 5)
}

// Whether an account lies under another: it is that one, or starts with its name and a colon.
pub fn is_under(account: &[u8], above: &[u8]) -> bool
    ensures value { result ≡ lies_under account.now above.now }
    ensures exactly { Decides result (LiesUnder account.now above.now) }
{
    account
        .strip_prefix(above)
        .is_some_and(|rest| matches!(rest, [] | [b':', ..]))
}
