// A name kept in place, without allocation: of a commodity or of an account. Clauses see it as its bytes.
ghost use Rattle.std.specs.Prelude.{◌≡◌, take};

use byte_text::front;
use std::marker::Model;
use values::names::LONGEST_NAME;

// The name is the first `len` bytes; those behind are 0.
#[derive(Clone, Copy)]
pub struct Name {
    bytes: [u8; LONGEST_NAME],
    len: usize,
}

impl Model for Name {
    ghost use Rattle.std.specs.Prelude.{◌≡◌, ℕ, ◌-◌, ◌≤◌, List, ◌++◌, length, take, drop, replicate};
    ghost use Rattle.books.specs.Padding.{whole_name, same_length};

    ghost Value = { List ℕ };

    ghost view = { λ n. take n.len n.bytes };

    ghost invariant = { λ n. (n.len ≤ 48) × ((length n.bytes ≡ 48) × (drop n.len n.bytes ≡ replicate (48 - n.len) 0)) };

    ghost inverse = { λ text. record { bytes = text ++ replicate (48 - length text) 0; len = length text } };

    ghost inverse_ok = { λ n h i. record { bytes = whole_name n.len n.bytes h.0 h.1.0 h.1.1 i; len = same_length n.len n.bytes h.0 h.1.0 i } };
}

impl Name {
    // The name of these bytes; of a longer text, its front.
    pub fn new(text: &[u8]) -> Name
        ensures { result ≡ take 48 text.now }
    {
        let kept = front(text, LONGEST_NAME);
        let mut bytes = [0; LONGEST_NAME];
        bytes[..kept.len()].copy_from_slice(kept);
        Name {
            bytes,
            len: kept.len(),
        }
    }

    pub fn as_slice(&self) -> &[u8]
        ensures { result.now ≡ self.now }
    {
        front(&self.bytes, self.len)
    }
}
