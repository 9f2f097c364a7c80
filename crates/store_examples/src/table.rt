//! A query with a table of what fails.

ghost use Rattle.std.specs.Prelude.{◌≡◌, ◌≤◌, ◌↔◌, Any, IsTrue};
ghost use Rattle.tuple_model.specs.Limits.{most_items, most_size};

use cover_core::{Query, Question};
use mask_bytes::OutOfMemory;
use std::alloc::Global;
use std::sync::ledger::Ledger;
use tuple_order::{Steps, Tuple};

/// The tuples of a table fail.
#[derive(Drop)]
pub struct Table<'a> {
    pub items: u16,
    pub size: u8,
    pub failing: &'a [&'a [u16]],
    ghost few: { items ≤ most_items },
    ghost small: { size ≤ most_size },
}

impl<'a> Question for Table<'a> {
    ghost items = { λ table. table.items };

    ghost size = { λ table. table.size };

    ghost Fails = { λ table t. Any (λ set. set.now ≡ t) table.failing.now };
}

impl<'a> Query for Table<'a> {
    type Scratch = ();

    ghost Fits = { λ table scratch. Unit {0} };

    fn items(&self) -> u16 {
        self.items
    }

    fn size(&self) -> u8 {
        self.size
    }

    fn scratch(&self, _alloc: Global) -> Result<(), OutOfMemory> {
        Ok(())
    }

    fn judge<L: Ledger>(&self, _scratch: &mut (), t: &Tuple, steps: &mut Steps<L>) -> bool {
        steps.tick();
        self.failing.iter().any(|set| is(set, t))
    }
}

fn is(set: &[u16], t: &Tuple) -> bool
    ensures { IsTrue result ↔ (set.now ≡ t.now) }
{
    set == t.items()
}
