//! Variables with the least set of each prefix of them.

ghost use Rattle.std.specs.Prelude.{◌≡◌, ◌≤◌, ◌<◌, ◌+◌, ◌++◌, ◌∷◌, [], ℕ, All, length, take, slice_index};
ghost use Rattle.gf2_rows.specs.Combinations.{most_rows};
ghost use Rattle.wire_table.specs.Tables.{IsTable};
ghost use Rattle.needed.specs.LeastSets.{HoldsLeastSets};

use crate::scratch::Scratch;
use gf2_rows::{MOST_PREFIXES, MOST_ROWS, RowStack};
use wire_table::WireTable;

/// At most 64 variables, with the elimination of their randoms and the least set of each prefix of them.
#[derive(Drop)]
pub struct Prefixes {
    stack: RowStack,
    vars: [u16; MOST_ROWS],
    // The least set of each prefix of the variables, by its length.
    leasts: [u64; MOST_PREFIXES],
    count: usize,
}

impl Prefixes {
    /// No variables, for any table.
    pub fn new() -> Self
        ensures held { (t : _) → IsTable t → HoldsLeastSets t (length t.products) result }
        ensures none { take result.count result.vars ≡ [] }
    {
        Prefixes {
            stack: RowStack::new(),
            vars: [0; MOST_ROWS],
            leasts: [0; MOST_PREFIXES],
            count: 0,
        }
    }

    /// Keeps the first variables alone, and all of them where there are no more than `count`.
    pub fn truncate(&mut self, count: usize)
        ensures held { (t : _) (monomials : ℕ) →
            HoldsLeastSets t monomials self.old → HoldsLeastSets t monomials self.new }
        ensures vars { take self.new.count self.new.vars ≡ take count (take self.old.count self.old.vars) }
    {
        if count < self.count {
            self.stack.truncate(count);
            self.count = count;
        }
    }

    /// Adds variables at the end.
    #[inline(always)]
    pub fn extend(&mut self, table: &WireTable, scratch: &mut Scratch, vars: &[u16])
        requires held { HoldsLeastSets table.now scratch.old self.old }
        requires few { self.old.count + length vars.now ≤ most_rows }
        requires there { All (λ v. v < length table.now.random_rows) vars.now }
        ensures held { HoldsLeastSets table.now scratch.new self.new }
        ensures scratch { scratch.new ≡ scratch.old }
        ensures vars { take self.new.count self.new.vars ≡ take self.old.count self.old.vars ++ vars.now }
    {
        for &var in vars {
            self.push(table, scratch, var);
        }
    }

    // Adds a variable at the end.
    fn push(&mut self, table: &WireTable, scratch: &mut Scratch, var: u16)
        requires held { HoldsLeastSets table.now scratch.old self.old }
        requires few { self.old.count < most_rows }
        requires there { var < length table.now.random_rows }
        ensures held { HoldsLeastSets table.now scratch.new self.new }
        ensures scratch { scratch.new ≡ scratch.old }
        ensures count { self.new.count ≡ self.old.count + 1 }
        ensures vars { take self.new.count self.new.vars ≡ take self.old.count self.old.vars ++ var ∷ [] }
    {
        let count = self.count;
        let least = self.leasts[count];
        self.vars[count] = var;
        self.count = count + 1;
        self.leasts[count + 1] = match self.stack.push(table.random_row(var)) {
            Some(mask) => least | scratch.shares_left(table, &self.vars[..count + 1], mask),
            None => least,
        };
    }

    /// The least set of all of them.
    pub fn least(&self) -> u64
        requires { self.now.count < length self.now.leasts }
        ensures { result ≡ slice_index self.now.leasts self.now.count }
    {
        self.leasts[self.count]
    }
}
