//! A gate that tells which block was claimed, and by which worker.

ghost use Rattle.std.specs.Prelude.{◌<◌};

use crate::table::Table;
use check_workers::{Gate, minimal};
use std::sync::atomic::{AtomicBool, AtomicU64, Ordering};
use std::test::Fail;

// Counts the blocks, marks their numbers, and tells whether one was claimed by a worker that there isn't, or began in
// the midst.
#[derive(Drop)]
struct Register {
    workers: u16,
    block: u64,
    blocks: AtomicU64,
    numbers: AtomicU64,
    misplaced: AtomicBool,
    ghost some_ranks: { 0 < block },
}

impl Gate for Register {
    fn at_block(&self, worker: u16, block: u64) {
        let number = block / self.block;
        if block % self.block != 0 || worker >= self.workers {
            self.misplaced.store(true, Ordering::SeqCst);
        }
        self.blocks.fetch_add(1, Ordering::SeqCst);
        self.numbers.fetch_or(1 << (number % 64), Ordering::SeqCst);
    }
}

#[test]
fn each_block_is_claimed_once(rt: HostRuntime) -> Result<(), Fail> {
    // The workers, the ranks of a block, and how many blocks the eleven tuples of at most two of four items make.
    for (workers, block, blocks) in [
        (1, 1, 11),
        (3, 2, 6),
        (7, 3, 4),
        (64, 1, 11),
        (64, 65536, 1),
    ] {
        let gate = Register {
            workers,
            block,
            blocks: AtomicU64::new(0),
            numbers: AtomicU64::new(0),
            misplaced: AtomicBool::new(false),
        };
        let table = Table {
            items: 4,
            size: 2,
            failing: &[],
        };
        let closed = minimal(&rt, rt.alloc(), &table, workers, block, 4, &gate)?;
        assert!(rt; closed.live().is_empty());
        assert_eq!(rt;
            gate.blocks.load(Ordering::SeqCst),
            blocks,
            "{workers} {block}"
        );
        assert_eq!(rt;
            gate.numbers.load(Ordering::SeqCst),
            (1 << blocks) - 1,
            "{workers} {block}"
        );
        assert!(rt; !gate.misplaced.load(Ordering::SeqCst));
    }
    Ok(())
}
