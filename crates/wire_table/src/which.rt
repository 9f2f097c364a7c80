//! Over which inputs a number of shares is asked.

ghost use Rattle.std.specs.Prelude.{◌≡◌};
ghost use Rattle.wire_table.specs.Whiches.{which_word};

/// Of which inputs an event of random probing asks whether too many shares are needed.
#[derive(Clone, Copy, Debug, PartialEq, Eq, Drop)]
pub enum Which {
    /// Of some input.
    Any,
    /// Of the input with this number.
    Input(u8),
    /// Of each of two inputs.
    Both,
}

impl Which {
    /// The word by which reports name it. Events ask of two inputs at most.
    pub fn word(self) -> &'static str
        ensures { result.now ≡ which_word self }
    {
        match self {
            Which::Any => "any",
            Which::Input(0) => "in0",
            Which::Input(_) => "in1",
            Which::Both => "both",
        }
    }
}
