//! The least set of input shares from which variables of a gadget can be simulated.
#![tactic(auto)]

ghost use Rattle.std.specs.Prelude.{◌≡◌, ◌≤◌, ◌<◌, ◌↔◌, ℕ, All, length};
ghost use Rattle.gadget_model.specs.Circuit.{Circuit};
ghost use Rattle.gadget_model.specs.Simulation.{IsSimulatable, IsWithin};
ghost use Rattle.gf2_rows.specs.Combinations.{most_rows};
ghost use Rattle.wire_table.specs.Tables.{StandsFor};

mod elimination;
mod held_items;
mod indices;
mod item_scratch;
mod prefixes;
mod scratch;
mod sums;

pub use elimination::Elimination;
pub use indices::share_indices;
pub use item_scratch::ItemScratch;
use prefixes::Prefixes;
pub use scratch::Scratch;
use wire_table::WireTable;

/// The least set of input shares from which the variables can be simulated. A share is in it exactly
/// where a product with it is left in some sum of the variables in which all randoms cancel. Takes no
/// memory.
pub fn needed(table: &WireTable, scratch: &mut Scratch, vars: &[u16]) -> u64
    requires scratch { scratch.old ≡ length table.now.products }
    requires few { length vars.now ≤ most_rows }
    requires there { All (λ v. v < length table.now.random_rows) vars.now }
    ensures scratch { scratch.new ≡ scratch.old }
    ensures least { (g : Circuit) (set : ℕ) → StandsFor table.now g →
        IsSimulatable g vars.now set ↔ IsWithin result set }
{
    // Called for its contract alone, which says what holds of every table.
    let _vars = table.vars();
    let mut prefixes = Prefixes::new();
    prefixes.extend(table, scratch, vars);
    prefixes.least()
}
