//! A table of items.

ghost use Rattle.std.specs.Prelude.{◌≡◌, ◌≤◌, replicate, length, IfOk};
ghost use Rattle.tallies.specs.declared.tally.TallyKind.TheVariants.{Item};
ghost use Rattle.tallies.specs.Counting.{most_labels};

use crate::raising::raise_each;
use crate::tally::{Cell, Label, Tally};
use mask_bytes::OutOfMemory;
use std::alloc::Global;
use tuple_order::{MOST_ITEMS, Tuple};

/// How many tuples have each item, from the first to the last that a query may have.
#[derive(Drop)]
pub struct ByItem {
    counts: Vec<u64>,
    ghost few: { length counts.items ≤ most_labels Item },
}

impl ByItem {
    /// No tuple is counted yet.
    pub fn make(alloc: Global) -> Result<ByItem, OutOfMemory>
        ensures kind { IfOk result (λ tally. ⟦<ByItem as Tally>⟧.kind tally ≡ Item) }
        ensures counts { IfOk result (λ tally. ⟦<ByItem as Tally>⟧.counts tally ≡ replicate 511 0) }
    {
        let counts = vec![in alloc; 0; usize::from(MOST_ITEMS)]?;
        Ok(ByItem { counts })
    }
}

impl Tally for ByItem {
    ghost kind = { λ _. Item };

    ghost counts = { λ tally. tally.counts.items };

    fn feed(&mut self, _event: u32, t: &Tuple) {
        raise_each(&mut self.counts, t.items());
    }

    fn cell(&self, k: u32) -> Option<Cell> {
        let count = *self.counts.get(k as usize)?;
        Some(Cell {
            label: Label::Item(k as u16),
            count,
        })
    }

    ghost few = { λ tally. tally.few };
}
