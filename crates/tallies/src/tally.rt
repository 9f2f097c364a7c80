//! What a table of counts is.

ghost use Rattle.std.specs.Prelude.{◌≡◌, ◌≤◌, ℕ, List, length, slice_get};
ghost use Rattle.tallies.specs.Counting.{most_labels, counted, cells};

use tuple_order::Tuple;

/// What a tally counts of tuples.
#[derive(Clone, Copy, Debug, PartialEq, Eq, Drop)]
pub enum TallyKind {
    /// How many items a tuple has.
    Size,
    /// Which items a tuple has.
    Item,
}

/// What a count is the count of.
#[derive(Clone, Copy, Debug, PartialEq, Eq, Drop)]
pub enum Label {
    /// Tuples of so many items.
    Size(u8),
    /// Tuples with the item of this number.
    Item(u16),
}

/// A count with its label.
#[derive(Clone, Copy, Debug, PartialEq, Eq, Drop)]
pub struct Cell {
    /// Which tuples were counted.
    pub label: Label,
    /// At the greatest number of 64 bits a count stands still.
    pub count: u64,
}

/// A table of counts, to which tuples are fed. Implementors say which kind it is and what it has counted so far
/// (`kind`, `counts`).
pub trait Tally: Drop {
    ghost use Rattle.tallies.specs.declared.tally.TallyKind.{TallyKind};

    ghost kind: { Self → TallyKind };

    ghost counts: { Self → List ℕ };

    /// Counts a tuple that fails for the event with this number.
    fn feed(&mut self, event: u32, t: &Tuple)
        ensures kind { kind self.new ≡ kind self.old }
        ensures counts { counts self.new ≡ counted (kind self.old) t.now (counts self.old) };

    /// The count at a place, or `None` past the last one.
    fn cell(&self, k: u32) -> Option<Cell>
        ensures at { result ≡ slice_get (cells (kind self.now) (counts self.now)) k }
        ensures few { length (counts self.now) ≤ most_labels (kind self.now) };

    ghost few: { (x : Self) → length (counts x) ≤ most_labels (kind x) };
}
