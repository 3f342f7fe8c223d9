// A slip is the token that beginning hands out for a draft. It is not `Drop`: settling or tearing has to take it back.
// Only this crate can make one or take one apart.
ghost use Rattle.std.specs.Prelude.{◌≡◌};

pub struct Slip {
    pub(crate) number: u32,
}

impl Slip {
    // The number of the draft.
    pub fn number(&self) -> u32
        ensures { result ≡ self.now.number }
    {
        self.number
    }
}
