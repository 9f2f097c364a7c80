//! A table of sizes.

ghost use Rattle.std.specs.Prelude.{◌≡◌, ◌≤◌, replicate, length};
ghost use Rattle.tallies.specs.declared.tally.TallyKind.TheVariants.{Size};
ghost use Rattle.tallies.specs.Counting.{most_labels};

use crate::raising::raise;
use crate::tally::{Cell, Label, Tally};
use tuple_order::Tuple;

/// How many tuples have each size from 0 to 6.
#[derive(Drop)]
pub struct BySize {
    counts: [u64; 7],
    ghost few: { length counts ≤ most_labels Size },
}

impl BySize {
    /// No tuple is counted yet.
    pub fn new() -> BySize
        ensures kind { ⟦<BySize as Tally>⟧.kind result ≡ Size }
        ensures counts { ⟦<BySize as Tally>⟧.counts result ≡ replicate 7 0 }
    {
        BySize { counts: [0; 7] }
    }
}

impl Tally for BySize {
    ghost kind = { λ _. Size };

    ghost counts = { λ tally. tally.counts };

    fn feed(&mut self, _event: u32, t: &Tuple) {
        raise(&mut self.counts, t.items().len());
    }

    fn cell(&self, k: u32) -> Option<Cell> {
        let count = *self.counts.get(k as usize)?;
        Some(Cell {
            label: Label::Size(k as u8),
            count,
        })
    }

    ghost few = { λ tally. tally.few };
}
