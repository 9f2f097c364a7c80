//! Small lists, worked out by hand.

use antichain_list::{Added, Antichain};
use std::alloc::Global;
use std::process::Abort;
use std::test::Fail;
use tuple_order::Tuple;

// The codes of the tuples of item 0 alone, and of item 1 alone.
const ZERO: u64 = 0x4040_2000_0000_0000;

const ONE: u64 = 0x4040_4000_0000_0000;

// The tuple of these items.
fn tuple(rt: &impl Abort, items: &[u16]) -> Tuple {
    Tuple::from_items(items).expect(rt, "items that rise")
}

// Adds a tuple of these items, and gives the items of the subset that the list had, if it had one.
fn covering(rt: &impl Abort, list: &mut Antichain, items: &[u16]) -> Option<Tuple> {
    match list.add(tuple(rt, items)).expect(rt, "memory") {
        Added::Kept => None,
        Added::Covered(s) => Some(s),
    }
}

#[test]
fn adds_what_is_not_covered(rt: HostRuntime) -> Result<(), Fail> {
    let mut list = Antichain::new(rt.alloc());
    assert!(rt; covering(&rt, &mut list, &[0, 1]).is_none());
    let itself = covering(&rt, &mut list, &[0, 1]).expect(&rt, "covered");
    assert_eq!(rt; itself.items(), [0, 1].as_slice());
    assert!(rt; covering(&rt, &mut list, &[0]).is_none());
    assert_eq!(rt; list.tuples(), [ZERO].as_slice());
    let first = covering(&rt, &mut list, &[0, 2]).expect(&rt, "covered");
    assert_eq!(rt; first.items(), [0].as_slice());
    Ok(())
}

#[test]
fn merges_the_minimal_tuples(rt: HostRuntime) -> Result<(), Fail> {
    let mut list = Antichain::new(rt.alloc());
    let mut other = Antichain::new(rt.alloc());
    let _kept = list.add(tuple(&rt, &[0]))?;
    let _kept = other.add(tuple(&rt, &[1]))?;
    let _kept = other.add(tuple(&rt, &[0, 2]))?;
    list.merge(&other)?;
    assert_eq!(rt; list.tuples(), [ZERO, ONE].as_slice());
    Ok(())
}

// The list of the tuples that are added.
fn list_of(rt: &impl Abort, alloc: Global, tuples: &[&[u16]]) -> Result<Antichain, Fail> {
    let mut list = Antichain::new(alloc);
    for items in tuples {
        let _added = list.add(tuple(rt, items))?;
    }
    Ok(list)
}

#[test]
fn merges_lists_of_mixed_sizes_that_cover_some_of_each_other(rt: HostRuntime) -> Result<(), Fail> {
    let mut list = list_of(&rt, rt.alloc(), &[&[4], &[0, 1], &[2, 3], &[5, 6, 7]])?;
    let other = list_of(
        &rt,
        rt.alloc(),
        &[&[2], &[4, 8], &[5, 6], &[0, 1], &[1, 3, 7], &[0, 3, 7, 9]],
    )?;
    list.merge(&other)?;
    let joined = list_of(
        &rt,
        rt.alloc(),
        &[&[2], &[4], &[0, 1], &[5, 6], &[1, 3, 7], &[0, 3, 7, 9]],
    )?;
    assert_eq!(rt; list.tuples(), joined.tuples());
    assert_eq!(rt; list.len(), 6);
    // Items that came in from the other list are looked up too.
    let last = list
        .covers(&tuple(&rt, &[0, 3, 7, 8, 9]))
        .expect(&rt, "covered");
    assert_eq!(rt; last.items(), [0, 3, 7, 9].as_slice());
    Ok(())
}

#[test]
fn names_the_first_subset(rt: HostRuntime) -> Result<(), Fail> {
    let mut list = Antichain::new(rt.alloc());
    assert!(rt; list.covers(&tuple(&rt, &[0, 1, 2])).is_none());
    let _kept = list.add(tuple(&rt, &[1, 2]))?;
    let _kept = list.add(tuple(&rt, &[0, 2]))?;
    let first = list.covers(&tuple(&rt, &[0, 1, 2])).expect(&rt, "covered");
    assert_eq!(rt; first.items(), [0, 2].as_slice());
    assert!(rt; list.covers(&tuple(&rt, &[0, 1])).is_none());
    Ok(())
}
