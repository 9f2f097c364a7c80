//! The options of a command line that take a value.

ghost use Rattle.std.specs.Prelude.{◌≡◌};
ghost use Rattle.mask_terms.specs.Options.{option_word};

/// An option that takes a value.
#[derive(Clone, Copy, Debug, PartialEq, Eq, Drop)]
pub enum Opt {
    /// The greatest size of a tuple.
    Size,
    /// How many workers share the tuples.
    Workers,
    /// How many tuples a worker takes at once.
    Block,
    /// How many tuples may be looked at.
    Budget,
    /// How many words the first shared table is to have. There is none yet, so it changes nothing.
    FirstWords,
    /// Which wires leak, and how many copies of each.
    Wires,
}

impl Opt {
    /// The word by which a command line gives the option, as `--size`.
    pub fn word(self) -> &'static str
        ensures { result.now ≡ option_word self }
    {
        match self {
            Opt::Size => "--size",
            Opt::Workers => "--workers",
            Opt::Block => "--block",
            Opt::Budget => "--budget",
            Opt::FirstWords => "--words",
            Opt::Wires => "--wires",
        }
    }
}
