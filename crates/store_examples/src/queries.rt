//! Queries with a table of what fails, and their minimal failing tuples, worked out by hand.

ghost use Rattle.std.specs.Prelude.{◌≤◌};

use crate::table::Table;
use check_workers::{OpenGate, minimal};
use std::test::Fail;

// The failing tuples of at most so many items, and the minimal ones.
const TABLES: [(u16, u8, &[&[u16]], &[&[u16]]); 5] = [
    // Each superset of one that fails fails too.
    (
        4,
        2,
        &[&[1], &[0, 1], &[1, 2], &[1, 3], &[2, 3]],
        &[&[1], &[2, 3]],
    ),
    // A superset of one that fails may pass, and one that fails isn't minimal.
    (
        4,
        3,
        &[&[0], &[0, 3], &[1, 2], &[0, 1, 2], &[1, 2, 3], &[1, 3]],
        &[&[0], &[1, 2], &[1, 3]],
    ),
    // The empty tuple fails, so it alone is minimal.
    (3, 2, &[&[], &[1], &[0, 2]], &[&[]]),
    (3, 2, &[], &[]),
    // No items, and the last tuple.
    (0, 2, &[&[]], &[&[]]),
];

#[test]
fn any_workers_and_blocks_find_the_minimal_failing_tuples(rt: HostRuntime) -> Result<(), Fail> {
    let alloc = rt.alloc();
    for (items, size, failing, want) in TABLES {
        assert!(rt; items <= 511);
        assert!(rt; size <= 6);
        let table = Table {
            items,
            size,
            failing,
        };
        for workers in [1, 2, 3, 7, 64] {
            for block in [1, 2, 3, 65536, u64::MAX] {
                for first_words in [4, 5, 65536] {
                    let closed = minimal(
                        &rt,
                        alloc,
                        &table,
                        workers,
                        block,
                        first_words,
                        &OpenGate,
                    )?;
                    let found = closed.live();
                    assert_eq!(rt;
                        found.len(),
                        want.len(),
                        "{failing:?} {workers} {block} {first_words}"
                    );
                    for place in 0..found.len() {
                        assert_eq!(rt;
                            found.tuple(place).items(),
                            want[place],
                            "{failing:?} {workers} {block} {first_words}"
                        );
                    }
                }
            }
        }
    }
    Ok(())
}
