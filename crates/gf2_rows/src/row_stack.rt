//! Rows that come and go at the end of a list, with their elimination.

ghost use Rattle.std.specs.Prelude.{◌≡◌, ◌<◌, ◌++◌, ◌∷◌, [], length, take};
ghost use Rattle.gf2_rows.specs.Combinations.{most_rows};
ghost use Rattle.gf2_rows.specs.Newest.{NewlyCancels};

use crate::pivots::{Combination, Pivot, reduced};
use crate::{MOST_PREFIXES, MOST_ROWS};
use std::marker::Model;

/// A list of at most 64 rows, with what their elimination found. A row more takes the time of one
/// reduction, and none is done again when rows are taken off the end. It takes no memory.
#[derive(Drop)]
pub struct RowStack {
    rows: [u128; MOST_ROWS],
    pivots: [Pivot; MOST_ROWS],
    // How many of the pivots each prefix of the rows has, by its length.
    ranks: [usize; MOST_PREFIXES],
    count: usize,
}

impl Model for RowStack {
    ghost use Rattle.std.specs.Prelude.{ℕ, List, take};

    ghost Value = { List ℕ };

    ghost use Rattle.gf2_rows.specs.Stacked.{IsStack};

    ghost view = { λ s. take s.count s.rows };

    ghost invariant = { λ s. IsStack s.rows s.pivots s.ranks s.count };
}

impl RowStack {
    /// No rows.
    pub fn new() -> Self
        ensures { result ≡ [] }
    {
        let unused = Pivot {
            row: Combination { mask: 0, total: 0 },
            bit: 0,
        };
        RowStack {
            rows: [0; MOST_ROWS],
            pivots: [unused; MOST_ROWS],
            ranks: [0; MOST_PREFIXES],
            count: 0,
        }
    }

    /// Keeps the first rows alone, and all of them where there are no more than `count`.
    pub fn truncate(&mut self, count: usize)
        ensures { self.new ≡ take count self.old }
    {
        if count < self.count {
            self.count = count;
        }
    }

    /// Adds a row at the end. Answers the mask of a combination that has it and sums to zero, where
    /// there is one: bit j stands for row j.
    pub fn push(&mut self, row: u128) -> Option<u64>
        requires { length self.old < most_rows }
        ensures rows { self.new ≡ self.old ++ row ∷ [] }
        ensures cancels { NewlyCancels self.old row result }
    {
        let place = self.count;
        let rank = self.ranks[place];
        let given = Combination {
            mask: 1 << place,
            total: row,
        };
        let left = reduced(&self.pivots[..rank], given);
        self.rows[place] = row;
        self.count = place + 1;
        if left.total == 0 {
            self.ranks[place + 1] = rank;
            Some(left.mask)
        } else {
            self.pivots[rank] = Pivot {
                row: left,
                bit: left.total.trailing_zeros(),
            };
            self.ranks[place + 1] = rank + 1;
            None
        }
    }
}
