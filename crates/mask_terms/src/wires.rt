//! Which wires of a gadget leak, and how many copies of each.

ghost use Rattle.std.specs.Prelude.{◌≡◌};
ghost use Rattle.mask_terms.specs.Wires.{wires_named, wires_word};

/// Which wires of a gadget leak, and how many copies of each.
#[derive(Clone, Copy, Debug, PartialEq, Eq, Drop)]
pub enum Wires {
    /// Each variable is one wire.
    Plain,
    /// Each variable is as many wires as its uses make copies of it.
    Copies,
}

impl Wires {
    /// The word by which a command line and a report name the kind of wires.
    pub fn word(self) -> &'static str
        ensures { result.now ≡ wires_word self }
    {
        match self {
            Wires::Plain => "plain",
            Wires::Copies => "copies",
        }
    }

    /// The kind of wires of this word, or `None` where no kind has it.
    pub fn named(word: &str) -> Option<Wires>
        ensures { result ≡ wires_named word.now }
    {
        match word {
            "plain" => Some(Wires::Plain),
            "copies" => Some(Wires::Copies),
            _ => None,
        }
    }
}
