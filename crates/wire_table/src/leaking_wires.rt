//! The wires that leak, as items.

ghost use Rattle.std.specs.Prelude.{◌≡◌, ◌*◌, ◌<◌, ◌≤◌, ◌^◌, ℕ, Option, is_some, All, IfOk, length, map};
ghost use Rattle.gadget_limits.specs.Limits.{most_variables};
ghost use Rattle.wire_table.specs.CodeItems.{HasSmallWeight, item_of};
ghost use Rattle.wire_table.specs.Tables.{StandsFor};
ghost use Rattle.wire_table.specs.Uses.{wire_count, wire_items};

use crate::item::{Item, weighted_item};
use crate::table::WireTable;
use gadget_tree::Gadget;
use mask_bytes::OutOfMemory;
use mask_terms::Wires;
use std::alloc::Global;

/// The variables of a gadget that stand for some wire, in order, as items with the numbers of their wires.
pub fn wire_items(
    alloc: Global,
    gadget: &Gadget,
    table: &WireTable,
    wires: Wires,
) -> Result<Vec<Item>, OutOfMemory>
    requires table { StandsFor table.now gadget.now }
    ensures items { IfOk result (λ items. map item_of items.items ≡ wire_items wires gadget.now) }
    ensures few { IfOk result (λ items. length items.items ≤ most_variables) }
    ensures weights { IfOk result (λ items. All HasSmallWeight (map item_of items.items)) }
{
    let mut items = Vec::new(alloc);
    for var in 0..gadget.vars().len() as u16 {
        let weight = wire_count(wires, gadget.out_of(var).is_some(), table.uses(var));
        if weight > 0 {
            items.push(weighted_item(alloc, gadget, var, weight)?)?;
        }
    }
    Ok(items)
}

// For how many wires a variable stands that is used so often.
fn wire_count(wires: Wires, is_output: bool, uses: u32) -> u32
    requires { 2 * uses < 2 ^ 32 }
    ensures { (index : Option ℕ) → is_some index ≡ is_output → result ≡ wire_count wires index uses }
{
    match wires {
        Wires::Plain if is_output => uses.min(1),
        Wires::Plain => 1,
        Wires::Copies if is_output => 2 * uses,
        // A value that nothing uses is one wire.
        Wires::Copies => (2 * uses).max(2) - 1,
    }
}
