//! What the test of tuples works in.

ghost use Rattle.std.specs.Prelude.{◌≡◌, ◌↔◌, ◌<◌, ◌≤◌, ◌++◌, ℕ, All, IfOk, length, map};
ghost use Rattle.gadget_model.specs.Circuit.{Circuit};
ghost use Rattle.gadget_model.specs.Simulation.{IsSimulatable, IsWithin};
ghost use Rattle.tuple_model.specs.Limits.{most_size};
ghost use Rattle.wire_table.specs.Tables.{StandsFor};
ghost use Rattle.wire_table.specs.CodeItems.{item_of, ObservesFew, HasVariablesBelow};
ghost use Rattle.needed.specs.HeldItems.{observed_of};
ghost use Rattle.needed.specs.Others.{most_others};
ghost use Rattle.needed.specs.TestedItems.{observed_by, tested_items, variables_at};

use crate::elimination::Elimination;
use crate::held_items::{HeldItems, Observed};
use mask_bytes::OutOfMemory;
use std::alloc::Global;
use std::marker::Model;
use wire_table::{Item, WireTable};

/// What the test of tuples works in: the variables that each item observes, and the elimination of those of the last
/// tuple. Where the next tuple begins with the same items it goes on from there, so that a tuple that differs in its
/// last item takes the time of that item alone.
#[derive(Drop)]
pub struct ItemScratch<'t> {
    observed: Vec<Observed>,
    held: HeldItems<'t>,
}

impl<'t> Model for ItemScratch<'t> {
    ghost use Rattle.needed.specs.TestedItems.{TestedItems};

    ghost Value = { TestedItems };

    ghost use Rattle.needed.specs.ItemFields.{items_tested, IsItemScratch};

    ghost view = { items_tested };

    ghost invariant = { IsItemScratch };
}

impl<'t> ItemScratch<'t> {
    /// A scratch for a table and a list of items.
    pub fn make(
        alloc: Global,
        table: &'t WireTable,
        list: &[Item],
    ) -> Result<ItemScratch<'t>, OutOfMemory>
        requires few { All ObservesFew (map item_of list.now) }
        requires variables { All (HasVariablesBelow (length table.now.random_rows)) (map item_of list.now) }
        ensures { IfOk result (λ scratch. scratch ≡ tested_items table.now (map item_of list.now)) }
    {
        let observed = observed_by(alloc, list)?;
        let elimination = Elimination::make(alloc, table)?;
        Ok(ItemScratch {
            observed,
            held: HeldItems::new(elimination),
        })
    }

    /// The least set of input shares from which the variables of a tuple's items, and after them these others, can be
    /// simulated. Takes no memory.
    pub fn needed(&mut self, tuple: &[u16], others: &[u16]) -> u64
        requires there { All (λ i. i < length self.old.observed) tuple.now }
        requires short { length tuple.now ≤ most_size }
        requires few_others { length others.now ≤ most_others }
        requires others { All (λ v. v < length self.old.table.random_rows) others.now }
        ensures scratch { self.new ≡ self.old }
        ensures least { (g : Circuit) (set : ℕ) → StandsFor self.old.table g →
            IsSimulatable g (variables_at self.old.observed tuple.now ++ others.now) set ↔ IsWithin result set }
    {
        self.held.needed(&self.observed, tuple, others)
    }
}

// The variables that each of these items observes.
fn observed_by(alloc: Global, list: &[Item]) -> Result<Vec<Observed>, OutOfMemory>
    requires few { All ObservesFew (map item_of list.now) }
    ensures { IfOk result (λ observed. observed_of observed.items ≡ observed_by (map item_of list.now)) }
{
    let mut observed = Vec::with_capacity(alloc, list.len())?;
    for item in list {
        let mut vars = Observed::new();
        vars.try_extend_from_slice(item.vars.as_slice()).unwrap();
        observed.push(vars)?;
    }
    Ok(observed)
}
