//! Rounds: a table that becomes full is followed by one of four times as many words.

use crate::table::Table;
use check_workers::{OpenGate, minimal};
use std::test::Fail;

// The single items that fail, one tuple each.
const SINGLES: [&[u16]; 30] = [
    &[0],
    &[1],
    &[2],
    &[3],
    &[4],
    &[5],
    &[6],
    &[7],
    &[8],
    &[9],
    &[10],
    &[11],
    &[12],
    &[13],
    &[14],
    &[15],
    &[16],
    &[17],
    &[18],
    &[19],
    &[20],
    &[21],
    &[22],
    &[23],
    &[24],
    &[25],
    &[26],
    &[27],
    &[28],
    &[29],
];

// Items, how many of them fail alone, the first table's words, and the last one's.
const ROUNDS: [(u16, usize, u32, u32); 6] = [
    // Four failing tuples fit into four words, and a fifth doesn't.
    (8, 0, 4, 4),
    (8, 4, 4, 4),
    (8, 6, 4, 16),
    // Thirty need a third round. Its 64 words are the cap, since there are 41 tuples.
    (40, 30, 4, 64),
    (40, 30, 32, 32),
    // The first table has at least so many words, and no more than the cap.
    (40, 3, 5, 8),
];

#[test]
fn a_full_table_is_followed_by_a_larger_one(rt: HostRuntime) -> Result<(), Fail> {
    for (items, failing, first_words, words) in ROUNDS {
        assert!(rt; items <= 511);
        let table = Table {
            items,
            size: 1,
            failing: &SINGLES[..failing],
        };
        let closed = minimal(&rt, rt.alloc(), &table, 1, 1, first_words, &OpenGate)?;
        assert_eq!(rt; closed.live().len(), failing, "{items} {first_words}");
        for place in 0..closed.live().len() {
            assert_eq!(rt;
                closed.live().tuple(place).items(),
                SINGLES[place],
                "{items} {first_words}"
            );
        }
        assert_eq!(rt;
            closed.cursor(),
            u64::from(items) + 1,
            "{items} {first_words}"
        );
        assert_eq!(rt; closed.words(), words, "{items} {first_words}");
    }
    Ok(())
}
