// Whether a transaction is complete: `*` in the journal, or incomplete: `!`.
ghost use Rattle.std.specs.Prelude.{◌≡◌};
ghost use Rattle.values.specs.Flags.{flag_number};

#[derive(Clone, Copy, Debug, PartialEq, Eq)]
pub enum Flag {
    Complete,
    Incomplete,
}

impl Flag {
    // The number that stands for it in a row of the record.
    pub fn number(self) -> u8
        ensures { result ≡ flag_number self }
    {
        self as u8
    }
}
