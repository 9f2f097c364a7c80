//! Coefficients worked out by hand.

ghost use Rattle.std.specs.Prelude.{◌≡◌, ◌≤◌, All, IfOk, length, map};
ghost use Rattle.tuple_model.specs.Limits.{most_items, most_size};
ghost use Rattle.wire_table.specs.CodeItems.{item_of};
ghost use Rattle.wire_counts.specs.Coefficients.{weights_of};
ghost use Rattle.wire_counts.specs.Limits.{most_weight};

use antichain_list::Antichain;
use gadget_tree::Name;
use mask_bytes::OutOfMemory;
use smallvec::SmallVec;
use std::alloc::Global;
use std::process::Abort;
use std::test::Fail;
use std::thread::Threads;
use tuple_order::Tuple;
use wire_counts::coefficients;
use wire_table::{Item, ItemKind};

// An item that stands for so many wires.
fn item(alloc: Global, weight: u32) -> Result<Item, OutOfMemory>
    ensures { IfOk result (λ item. item.weight ≡ weight) }
{
    Ok(Item {
        name: Name::new(alloc, b"x")?,
        vars: SmallVec::new(alloc),
        kind: ItemKind::Internal,
        weight,
    })
}

// Three items of weights 1, 1 and 3.
fn items(alloc: Global) -> Result<Vec<Item>, OutOfMemory>
    ensures few { IfOk result (λ items. length items.items ≤ most_items) }
    ensures small { IfOk result
        (λ items. All (λ weight. weight ≤ most_weight) (weights_of (map item_of items.items))) }
{
    let mut items = Vec::new(alloc);
    items.push(item(alloc, 1)?)?;
    items.push(item(alloc, 1)?)?;
    items.push(item(alloc, 3)?)?;
    Ok(items)
}

// The numbers of sets of up to `size` of the five wires whose items have a subset among these tuples.
fn numbers<R: Abort + Threads + Sync>(
    rt: &R,
    alloc: Global,
    tuples: &[&[u16]],
    size: u8,
) -> Result<Vec<u128>, OutOfMemory>
    requires { size ≤ most_size }
{
    let mut list = Antichain::new(alloc);
    for t in tuples {
        let _added = list.add(Tuple::from_items(t).expect(rt, "items that rise"))?;
    }
    coefficients(rt, alloc, &items(alloc)?, &list, size)
}

#[test]
fn counts_wires_of_failing_items(rt: HostRuntime) -> Result<(), Fail> {
    let failing = numbers(&rt, rt.alloc(), &[&[0, 1], &[1, 2]], 3)?;
    assert_eq!(rt; failing.as_slice(), [0, 0, 4, 6].as_slice());
    let deep = numbers(&rt, rt.alloc(), &[&[2]], 6)?;
    assert_eq!(rt; deep.as_slice(), [0, 3, 9, 10, 5, 1, 0].as_slice());
    Ok(())
}

#[test]
fn counts_all_sets_where_the_empty_tuple_fails(rt: HostRuntime) -> Result<(), Fail> {
    let all = numbers(&rt, rt.alloc(), &[&[]], 3)?;
    assert_eq!(rt; all.as_slice(), [1, 5, 10, 10].as_slice());
    let none = numbers(&rt, rt.alloc(), &[], 2)?;
    assert_eq!(rt; none.as_slice(), [0, 0, 0].as_slice());
    Ok(())
}
