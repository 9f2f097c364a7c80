//! The tuples of at most two of five items, and counts and codes that were worked out apart from this code.

use std::test::Fail;
use tuple_order::{Tuple, count, is_subset, next, rank, subset, unrank};

#[test]
fn counts_tuples(rt: HostRuntime) -> Result<(), Fail> {
    assert_eq!(rt; count(0, 3), 1);
    assert_eq!(rt; count(5, 2), 16);
    assert_eq!(rt; count(9, 2), 46);
    assert_eq!(rt; count(85, 4), 2_127_211);
    Ok(())
}

#[test]
fn finds_tuples_by_rank(rt: HostRuntime) -> Result<(), Fail> {
    assert_eq!(rt; unrank(5, 2, 0).items(), [].as_slice());
    assert_eq!(rt; unrank(5, 2, 5).items(), [4].as_slice());
    assert_eq!(rt; unrank(5, 2, 6).items(), [0, 1].as_slice());
    let mut last = unrank(5, 2, 15);
    assert_eq!(rt; last.items(), [3, 4].as_slice());
    assert_eq!(rt; rank(5, 2, &last), 15);
    assert!(rt; !next(5, 2, &mut last));
    assert_eq!(rt; last.items(), [3, 4].as_slice());
    Ok(())
}

#[test]
fn codes_tuples(rt: HostRuntime) -> Result<(), Fail> {
    let pair = unrank(5, 2, 6);
    assert_eq!(rt; pair.code(), 0x4080_2020_0000_0000);
    let codes = pair.subset_codes();
    assert_eq!(rt; codes[0], 0x4000_0000_0000_0000);
    assert_eq!(rt; codes[1], 0x4040_2000_0000_0000);
    assert_eq!(rt; codes[2], 0x4040_4000_0000_0000);
    assert_eq!(rt; codes[3], 0x4080_2020_0000_0000);
    assert!(rt; Tuple::of_code(0x4080_2020_0000_0000).is_some());
    assert!(rt; Tuple::of_code(0x4080_2020_0000_0001).is_none());
    assert!(rt; Tuple::from_items(&[0, 1]).is_some());
    assert!(rt; Tuple::from_items(&[1, 1]).is_none());
    Ok(())
}

#[test]
fn takes_subsets(rt: HostRuntime) -> Result<(), Fail> {
    let pair = unrank(5, 2, 15);
    assert!(rt; pair.items().len() == 2);
    let second = subset(2, &pair);
    assert_eq!(rt; second.items(), [4].as_slice());
    assert!(rt; is_subset(&second, &pair));
    assert!(rt; !is_subset(&pair, &second));
    Ok(())
}
