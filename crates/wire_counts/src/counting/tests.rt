//! Counts by blocks are the count of one block.

use super::count_sets;
use crate::binomials::Binomials;
use antichain_list::Antichain;
use std::test::Fail;
use tuple_order::Tuple;

#[test]
fn blocks_count_what_one_block_counts(rt: HostRuntime) -> Result<(), Fail> {
    // Items of weights 1, 1 and 3: of their five wires, item 2 stands for three.
    let binomials = [Binomials::make(1), Binomials::make(1), Binomials::make(3)];
    let mut list = Antichain::new(rt.alloc());
    let _added = list.add(Tuple::from_items(&[0, 1]).expect(&rt, "items that rise"))?;
    let _added = list.add(Tuple::from_items(&[1, 2]).expect(&rt, "items that rise"))?;
    // There are eight tuples: one block, eight of one rank, and three of which the last has two ranks.
    for block in [65_536, 1, 3] {
        let numbers = count_sets(&rt, &binomials, &list, 3, block);
        assert_eq!(rt; numbers, [0, 0, 4, 6, 0, 0, 0]);
    }
    Ok(())
}
