//! What the words of a command line give: settings, or why there are none.

use mask_bytes::OutOfMemory;
use mask_terms::{Task, UsageKind, Wires};

/// How a gadget is to be checked.
#[derive(Clone, Copy, Debug, PartialEq, Eq, Drop)]
pub struct Settings {
    /// What is asked.
    pub task: Task,
    /// The task's order; a demonstration's number of shares.
    pub t: u8,
    /// The greatest size of a tuple.
    pub size: u8,
    /// How many workers share the tuples.
    pub workers: u16,
    /// How many tuples a worker takes at once.
    pub block: u64,
    /// How many tuples may be looked at.
    pub budget: u64,
    /// How many words the first shared table is to have. There is none yet, so it changes nothing.
    pub words: u32,
    /// Which wires leak.
    pub wires: Wires,
    /// Whether tallies are fed the failing tuples, and the report ends with their counts.
    pub tallies: bool,
}

/// Why the words of a command line give no settings.
#[derive(Clone, Copy, Debug, PartialEq, Eq, Drop)]
pub enum WordsError {
    /// The words are wrong in this part.
    Usage(UsageKind),
    /// `--size` or `--wires` was given with a task that uses neither.
    SizeNotUsed,
    /// Memory ran out.
    OutOfMemory,
}

impl From<OutOfMemory> for WordsError {
    ghost use Rattle.std.specs.Prelude.{◌≡◌};
    ghost use Rattle.mask_words.specs.declared.answer.WordsError.TheVariants as error;

    ghost from_gives = { λ _ e. e ≡ error.OutOfMemory };

    fn from(_error: OutOfMemory) -> WordsError {
        WordsError::OutOfMemory
    }
}
