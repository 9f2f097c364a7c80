//! Least sets of variables that come and go at the end of a list.

ghost use Rattle.std.specs.Prelude.{◌≡◌, ◌≤◌, ◌<◌, ◌↔◌, ◌+◌, ◌++◌, [], ℕ, All, length, take, IfOk};
ghost use Rattle.gadget_model.specs.Circuit.{Circuit};
ghost use Rattle.gadget_model.specs.Simulation.{IsSimulatable, IsWithin};
ghost use Rattle.gf2_rows.specs.Combinations.{most_rows};
ghost use Rattle.wire_table.specs.Tables.{StandsFor};

use crate::prefixes::Prefixes;
use crate::scratch::Scratch;
use mask_bytes::OutOfMemory;
use std::alloc::Global;
use std::marker::Model;
use wire_table::WireTable;

/// A list of at most 64 variables of one table, with their elimination, which gives the least set of input shares from
/// which they can be simulated. One variable more takes one reduction, and none is done again when variables are
/// taken off the end. Once made it takes no memory.
#[derive(Drop)]
pub struct Elimination<'t> {
    table: &'t WireTable,
    scratch: Scratch,
    prefixes: Prefixes,
}

impl<'t> Model for Elimination<'t> {
    ghost use Rattle.needed.specs.Eliminated.{Eliminated};

    ghost Value = { Eliminated };

    ghost use Rattle.needed.specs.HeldFields.{eliminated, IsElimination};

    ghost view = { eliminated };

    ghost invariant = { IsElimination };
}

impl<'t> Elimination<'t> {
    /// An elimination for a table, of no variables so far.
    pub fn make(alloc: Global, table: &'t WireTable) -> Result<Elimination<'t>, OutOfMemory>
        ensures { IfOk result (λ elimination. elimination ≡ record { table = table.now; vars = [] }) }
    {
        // Called for its contract alone, which says what holds of every table.
        let _vars = table.vars();
        let scratch = Scratch::make(alloc, table)?;
        let prefixes = Prefixes::new();
        Ok(Elimination {
            table,
            scratch,
            prefixes,
        })
    }

    /// Keeps the first variables alone, and all of them where there are no more than `count`.
    pub fn truncate(&mut self, count: usize)
        ensures { self.new ≡ record { table = self.old.table; vars = take count self.old.vars } }
    {
        self.prefixes.truncate(count);
    }

    /// Adds variables at the end.
    // It is inlined, since most calls add one variable or none.
    #[inline(always)]
    pub fn extend(&mut self, vars: &[u16])
        requires few { length self.old.vars + length vars.now ≤ most_rows }
        requires there { All (λ v. v < length self.old.table.random_rows) vars.now }
        ensures { self.new ≡ record { table = self.old.table; vars = self.old.vars ++ vars.now } }
    {
        self.prefixes.extend(self.table, &mut self.scratch, vars);
    }

    /// The least set of input shares from which all of them can be simulated.
    pub fn least(&self) -> u64
        ensures { (g : Circuit) (set : ℕ) → StandsFor self.now.table g →
            IsSimulatable g self.now.vars set ↔ IsWithin result set }
    {
        self.prefixes.least()
    }
}
