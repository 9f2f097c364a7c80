//! Which sets of input shares a notion grants the simulator of a tuple's probes.

ghost use Rattle.std.specs.Prelude.{◌≡◌, ◌↔◌, ◌+◌, ◌*◌, ◌<◌, ◌≤◌, ℕ, IsTrue, All, length, map};
ghost use Rattle.gadget_limits.specs.Limits.{most_inputs, most_shares};
ghost use Rattle.gadget_model.specs.Circuit.{Circuit};
ghost use Rattle.gadget_model.specs.Simulation.{HasShare};
ghost use Rattle.tuple_model.specs.Limits.{most_size};
ghost use Rattle.wire_table.specs.CodeItems.{item_of};
ghost use Rattle.wire_table.specs.declared.item.ItemKind.TheVariants.{Output};
ghost use Rattle.notions.specs.Notions.{Grants, HasOutput, internal_count, is_internal};
ghost use Rattle.needed.specs.ShareCounts.{shares_of};
ghost use Rattle.notions.specs.Inside.{HasShareIndex, HasSmallIndex};

use crate::notion::Notion;
use needed::share_indices;
use wire_table::{Item, ItemKind};

/// Whether a notion of order `t` grants a set of shares of so many inputs.
pub(crate) fn is_granted(
    notion: Notion,
    inputs: u8,
    t: u8,
    list: &[Item],
    tuple: &[u16],
    set: u64,
) -> bool
    requires inputs { inputs ≤ most_inputs }
    requires there { All (λ i. i < length list.now) tuple.now }
    requires few { length tuple.now ≤ most_size }
    requires small { All HasSmallIndex (map item_of list.now) }
    ensures { (g : Circuit) → length g.inputs ≡ inputs →
        IsTrue result ↔ Grants notion g t (map item_of list.now) tuple.now set }
{
    match notion {
        Notion::Ni => has_at_most(set, inputs, u32::from(t)),
        Notion::Tni => has_at_most(set, inputs, tuple.len() as u32),
        Notion::Sni => has_at_most(set, inputs, internal_count(list, tuple)),
        Notion::Pini => {
            let others = indices(set, inputs) & !output_indices(list, tuple);
            others.count_ones() <= internal_count(list, tuple)
        }
    }
}

// Whether a set has at most so many shares of each input.
fn has_at_most(set: u64, inputs: u8, most: u32) -> bool
    requires { inputs ≤ most_inputs }
    ensures { IsTrue result ↔ ((input : ℕ) → input < inputs → shares_of input set ≤ most) }
{
    (0..inputs).all(|input| share_indices(set, input).count_ones() <= most)
}

// The indices of the shares of all inputs that are in a set, as bits.
fn indices(set: u64, inputs: u8) -> u16
    requires { inputs ≤ most_inputs }
    ensures { (index : ℕ) → index < most_shares → HasShare result index ↔ HasShareIndex inputs set index }
{
    let mut indices = 0;
    for input in 0..inputs {
        indices |= share_indices(set, input);
    }
    indices
}

// How many items of a tuple are no shares of outputs.
fn internal_count(list: &[Item], tuple: &[u16]) -> u32
    requires there { All (λ i. i < length list.now) tuple.now }
    requires few { length tuple.now ≤ most_size }
    ensures { result ≡ internal_count (map item_of list.now) tuple.now }
{
    let mut count = 0;
    for &item in tuple {
        count += u32::from(is_internal(&list[usize::from(item)]));
    }
    count
}

// Whether an item is no share of an output.
fn is_internal(item: &Item) -> bool
    ensures { result ≡ is_internal item.now.kind }
{
    matches!(item.kind, ItemKind::Internal)
}

// The indices of the shares of outputs among a tuple's items, as bits.
fn output_indices(list: &[Item], tuple: &[u16]) -> u16
    requires there { All (λ i. i < length list.now) tuple.now }
    requires small { All HasSmallIndex (map item_of list.now) }
    ensures { (index : ℕ) → HasShare result index ↔ HasOutput (map item_of list.now) tuple.now index }
{
    let mut indices = 0;
    for &item in tuple {
        indices |= index_bit(&list[usize::from(item)]);
    }
    indices
}

// The index of the share of an output that an item is, as a bit.
fn index_bit(item: &Item) -> u16
    requires { HasSmallIndex (item_of item.now) }
    ensures { (index : ℕ) → HasShare result index ↔ (item.now.kind ≡ Output index) }
{
    match item.kind {
        ItemKind::Internal => 0,
        ItemKind::Output(index) => 1 << index,
    }
}
