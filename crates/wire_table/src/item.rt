//! Items: what sets of probes, or of leaking wires, are made of.

ghost use Rattle.std.specs.Prelude.{◌≡◌, ◌<◌, length, IfOk};
ghost use Rattle.gadget_tree.specs.Gadgets.{IsGadget};
ghost use Rattle.wire_table.specs.Items.{kind_of, output_index, weighted_item};
ghost use Rattle.wire_table.specs.CodeItems.{item_of};

use gadget_tree::{Gadget, Name};
use mask_bytes::OutOfMemory;
use smallvec::SmallVec;
use std::alloc::Global;

/// What a set of probes is made of: one variable, or several that are observed together.
#[derive(Drop)]
pub struct Item {
    /// How reports name it.
    pub name: Name,
    /// The variables that it observes, by their numbers.
    pub vars: SmallVec<u16, 4>,
    /// Whether it is a share of an output.
    pub kind: ItemKind,
    /// How many wires it stands for.
    pub weight: u32,
}

/// Whether an item is a share of an output. SNI and PINI count the probes that aren't
/// (Barthe et al., CCS 2016; Cassiers and Standaert, IEEE TIFS 2020).
#[derive(Clone, Copy, Debug, PartialEq, Eq, Drop)]
pub enum ItemKind {
    /// It is no share of an output.
    Internal,
    /// It is the share with this index, of one output or of each.
    Output(u8),
}

/// A variable as an item that stands for so many wires.
pub fn weighted_item(
    alloc: Global,
    gadget: &Gadget,
    var: u16,
    weight: u32,
) -> Result<Item, OutOfMemory>
    requires { var < length gadget.now.variables }
    ensures { IfOk result (λ item. item_of item ≡ weighted_item gadget.now weight var) }
{
    let name = gadget.vars()[usize::from(var)].name.clone()?;
    let mut vars = SmallVec::new(alloc);
    vars.push(var)?;
    let kind = kind_of(gadget, var);
    Ok(Item {
        name,
        vars,
        kind,
        weight,
    })
}

// Whether a variable is a share of an output.
fn kind_of(gadget: &Gadget, var: u16) -> ItemKind
    requires { IsGadget gadget.now }
    ensures { result ≡ kind_of (output_index gadget.now var) }
{
    match gadget.out_of(var) {
        Some((_, index)) => ItemKind::Output(index),
        None => ItemKind::Internal,
    }
}
