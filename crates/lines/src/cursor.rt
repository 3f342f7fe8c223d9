// Reading a line field by field; spaces part the fields.
ghost use Rattle.std.specs.Prelude.{◌≡◌, ◌+◌, ◌≤◌, min, length, drop};
ghost use Rattle.fields.specs.Results.{map_ok};
ghost use Rattle.fields.specs.Spots.{seen};
ghost use Rattle.lines.specs.Cuts.{rest_at, field_at, field_end, missing};
ghost use Rattle.lines.specs.Directives.{quoted_from};
ghost use Rattle.lines.specs.Postings.{ends_at};

use crate::fault::LineFault;
use byte_text::{ByteClass, after, front, run_of};
use fields::field::Field;
use fields::quoted::read_quoted;

// A line, and the index in it up to which it is read.
#[derive(Clone, Copy)]
pub(crate) struct Cursor<'a> {
    bytes: &'a [u8],
    at: usize,
    ghost within: { at ≤ length bytes.now },
}

impl<'a> Cursor<'a> {
    pub(crate) fn start(bytes: &'a [u8]) -> Cursor<'a>
        ensures bytes { result.bytes.now ≡ bytes.now }
        ensures at { result.at ≡ 0 }
    {
        Cursor { bytes, at: 0 }
    }

    // The cursor at another index, or at the line's end.
    pub(crate) fn moved_to(self, at: usize) -> Cursor<'a>
        ensures bytes { result.bytes.now ≡ self.entry.bytes.now }
        ensures at { result.at ≡ min at (length self.entry.bytes.now) }
    {
        Cursor {
            bytes: self.bytes,
            at: at.min(self.bytes.len()),
        }
    }

    pub(crate) fn index(self) -> usize
        ensures value { result ≡ self.entry.at }
        ensures within { result ≤ length self.entry.bytes.now }
    {
        self.at
    }

    // The bytes that are not read yet.
    pub(crate) fn unread(self) -> &'a [u8]
        ensures value { result.now ≡ drop self.entry.at self.entry.bytes.now }
        ensures len { length result.now + self.entry.at ≡ length self.entry.bytes.now }
    {
        after(self.bytes, self.at)
    }

    // The line from its next field on; empty, one past the end, where there is none.
    #[tactic(auto, unfolding(crate::specs::Cuts::field_start))]
    pub(crate) fn rest(self) -> Field<'a>
        ensures value { seen result ≡ rest_at self.entry.bytes.now self.entry.at }
        ensures reach { result.place + length result.text.now ≡ length self.entry.bytes.now + 1 }
        ensures behind { self.entry.at + 1 ≤ result.place }
    {
        let start = self.at + run_of(ByteClass::Space, self.unread());
        Field {
            text: after(self.bytes, start),
            place: start + 1,
        }
    }

    // The next field: empty, one past the end, where there is none.
    #[tactic(auto, unfolding(crate::specs::Cuts::field_text, crate::specs::Cuts::field_end))]
    pub(crate) fn next_field(&mut self) -> Field<'a>
        ensures field { seen result ≡ field_at self.old.bytes.now self.old.at }
        ensures bytes { self.new.bytes.now ≡ self.old.bytes.now }
        ensures at { self.new.at ≡ field_end self.old.bytes.now self.old.at }
        ensures short { result.place + length result.text.now ≤ length self.old.bytes.now + 1 }
    {
        let rest = self.rest();
        let n = run_of(ByteClass::Except(b' '), rest.text);
        *self = self.moved_to(rest.place - 1 + n);
        Field {
            text: front(rest.text, n),
            place: rest.place,
        }
    }

    // The quoted text that comes next.
    #[tactic(auto, unfolding(crate::specs::Directives::quoted_from))]
    pub(crate) fn next_quoted(&mut self) -> Result<Field<'a>, LineFault>
        ensures value { map_ok (λ f. record { text = seen f; end = self.new.at }) result ≡ quoted_from self.old.bytes.now self.old.at }
        ensures bytes { self.new.bytes.now ≡ self.old.bytes.now }
    {
        let rest = self.rest();
        let text = read_quoted(rest)?;
        *self = self.moved_to(rest.place + text.text.len() + 1);
        Ok(text)
    }

    pub(crate) fn is_at_end(mut self) -> bool
        ensures { result ≡ missing (field_at self.entry.bytes.now self.entry.at) }
    {
        self.next_field().text.is_empty()
    }

    // Nothing stands from here on, or the field too many is at fault.
    #[tactic(auto, unfolding(crate::specs::Postings::ends_at))]
    pub(crate) fn read_end(self) -> Result<(), LineFault>
        ensures { result ≡ ends_at self.entry.bytes.now self.entry.at }
    {
        if self.is_at_end() {
            Ok(())
        } else {
            Err(LineFault::Form(self.rest().place))
        }
    }
}
