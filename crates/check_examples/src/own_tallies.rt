//! Tallies that aren't the program's own.

ghost use Rattle.std.specs.Prelude.{◌≤◌, [], length};
ghost use Rattle.std.proofs.Common.{zero-le};
ghost use Rattle.tallies.specs.declared.tally.TallyKind.TheVariants.{Size};
ghost use Rattle.tallies.specs.Counting.{most_labels};

use mask_check::{Cell, Label, Tally};
use std::sync::Arc;
use std::sync::atomic::{AtomicU64, Ordering};
use tallies::raise;
use tuple_order::Tuple;

/// How many tuples are empty, and how many have one item.
#[derive(Drop)]
pub struct FewSizes {
    counts: [u64; 2],
    ghost few: { length counts ≤ most_labels Size },
}

impl FewSizes {
    /// No tuple is counted yet.
    pub fn new() -> FewSizes {
        FewSizes { counts: [0; 2] }
    }
}

impl Tally for FewSizes {
    ghost kind = { λ _. Size };

    ghost counts = { λ tally. tally.counts };

    fn feed(&mut self, _event: u32, t: &Tuple) {
        raise(&mut self.counts, t.items().len());
    }

    fn cell(&self, k: u32) -> Option<Cell> {
        let count = *self.counts.get(k as usize)?;
        Some(Cell {
            label: Label::Size(k as u8),
            count,
        })
    }

    ghost few = { λ tally. tally.few };
}

/// A tally without counts. How many such tallies were dropped is counted apart.
pub struct Dropped {
    drops: Arc<AtomicU64>,
}

impl Dropped {
    /// A tally that raises `drops` when it is dropped.
    pub fn new(drops: Arc<AtomicU64>) -> Dropped {
        Dropped { drops }
    }
}

impl Drop for Dropped {
    fn drop(self) {
        self.drops.fetch_add(1, Ordering::SeqCst);
        let Dropped { drops: _ } = self;
    }
}

impl Tally for Dropped {
    ghost kind = { λ _. Size };

    ghost counts = { λ _. [] };

    fn feed(&mut self, _event: u32, _t: &Tuple) {}

    fn cell(&self, _k: u32) -> Option<Cell> {
        None
    }

    ghost few = { λ _. zero-le };
}
