//! The items of a notion.

ghost use Rattle.std.specs.Prelude.{◌≡◌, ◌<◌, length, map, IfOk, OnOk};
ghost use Rattle.std.specs.List.{range_with_len};
ghost use Rattle.wire_table.specs.Items.{numbers};
ghost use Rattle.wire_table.specs.CodeItems.{item_of};
ghost use Rattle.notions.specs.Items.{items_of, variable_item, column_item, inner_numbers};
ghost use Rattle.notions.specs.Inside.{GetsItems};

use crate::notion::Notion;
use gadget_tree::{Gadget, Name};
use mask_bytes::OutOfMemory;
use smallvec::SmallVec;
use std::alloc::Global;
use wire_table::{Item, ItemKind, weighted_item};

/// The items of a notion on a gadget, in order.
pub(crate) fn items_of(
    alloc: Global,
    gadget: &Gadget,
    notion: Notion,
) -> Result<Vec<Item>, OutOfMemory>
    ensures { IfOk result (λ items. map item_of items.items ≡ items_of notion gadget.now) }
{
    let mut items = Vec::new(alloc);
    if notion.has_columns() {
        extend_inner(alloc, gadget, &mut items)?;
        extend_columns(alloc, gadget, &mut items)?;
    } else {
        extend_variables(alloc, gadget, &mut items)?;
    }
    Ok(items)
}

// Adds each variable.
fn extend_variables(
    alloc: Global,
    gadget: &Gadget,
    items: &mut Vec<Item>,
) -> Result<(), OutOfMemory>
    ensures { OnOk result
        (GetsItems items.old.items (map (variable_item gadget.now) (numbers gadget.now)) items.new.items) }
{
    for var in 0..gadget.vars().len() as u16 {
        items.push(weighted_item(alloc, gadget, var, 1)?)?;
    }
    Ok(())
}

// Adds each variable that is no share of an output.
fn extend_inner(alloc: Global, gadget: &Gadget, items: &mut Vec<Item>) -> Result<(), OutOfMemory>
    ensures { OnOk result
        (GetsItems items.old.items (map (variable_item gadget.now) (inner_numbers gadget.now)) items.new.items) }
{
    for var in 0..gadget.vars().len() as u16 {
        if gadget.out_of(var).is_none() {
            items.push(weighted_item(alloc, gadget, var, 1)?)?;
        }
    }
    Ok(())
}

// Adds the column of each index.
fn extend_columns(alloc: Global, gadget: &Gadget, items: &mut Vec<Item>) -> Result<(), OutOfMemory>
    ensures { OnOk result
        (GetsItems items.old.items
        (map (column_item gadget.now) (range_with_len 0 gadget.now.shares)) items.new.items) }
{
    for index in 0..gadget.shares() {
        items.push(column_item(alloc, gadget, index)?)?;
    }
    Ok(())
}

// The shares with this index of all outputs as an item.
fn column_item(alloc: Global, gadget: &Gadget, index: u8) -> Result<Item, OutOfMemory>
    requires { index < gadget.now.shares }
    ensures { IfOk result (λ item. item_of item ≡ column_item gadget.now index) }
{
    let name = Name::new(alloc, format!(in alloc; "*{index}")?.as_bytes())?;
    let mut vars = SmallVec::new(alloc);
    for output in 0..gadget.outputs().len() as u8 {
        vars.push(gadget.out_var(output, index))?;
    }
    Ok(Item {
        name,
        vars,
        kind: ItemKind::Output(index),
        weight: 1,
    })
}
