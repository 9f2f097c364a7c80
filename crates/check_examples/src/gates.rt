//! What the caller's gate sees of a check: the workers that were asked for, and each block once.

use crate::fixture::{REFRESH, owned};
use mask_bytes::{MemSink, SureSource};
use mask_check::{Gate, check};
use std::sync::atomic::{AtomicBool, AtomicU64, Ordering};
use std::test::Fail;
use std::thread::yield_now;

// Keeps each worker at its first block until all have come to one: so many workers are at work at the same time. Counts for
// each block how often it was begun, by a hexadecimal digit at its first rank.
#[derive(Drop)]
struct Register {
    workers: u64,
    came: AtomicU64,
    begun: AtomicU64,
    gave_up: AtomicBool,
}

impl Register {
    // For these workers, one bit each.
    fn new(workers: u64) -> Register {
        Register {
            workers,
            came: AtomicU64::new(0),
            begun: AtomicU64::new(0),
            gave_up: AtomicBool::new(false),
        }
    }
}

impl Gate for Register {
    fn at_block(&self, worker: u16, block: u64) {
        self.came.fetch_or(1 << (worker % 64), Ordering::SeqCst);
        self.begun
            .fetch_add(1 << (block % 16 * 4), Ordering::SeqCst);
        for _turn in 0..50_000_000 {
            if self.came.load(Ordering::SeqCst) == self.workers {
                return;
            }
            yield_now();
        }
        self.gave_up.store(true, Ordering::SeqCst);
    }
}

// Words, the workers, and how often each block is begun. A notion asks once about 16 tuples, and `rpc` about 8 for each of
// two events.
const CHECKS: [(&[&str], u64, u64); 6] = [
    (
        &["mask", "sni", "2", "--workers", "3", "--block", "1"],
        0b111,
        0x1111_1111_1111_1111,
    ),
    (
        &["mask", "sni", "2", "--workers", "2", "--block", "3"],
        0b11,
        0x1001_0010_0100_1001,
    ),
    (
        &["mask", "rpc", "1", "--workers", "3", "--block", "1"],
        0b111,
        0x2222_2222,
    ),
    (
        &["mask", "rpc", "1", "--workers", "2", "--block", "3"],
        0b11,
        0x0200_2002,
    ),
    // Work over the budget is never begun.
    (&["mask", "sni", "2", "--budget", "15"], 0, 0),
    (&["mask", "rpc", "1", "--budget", "15"], 0, 0),
];

#[test]
fn the_workers_asked_for_begin_each_block_asked_for_once(rt: HostRuntime) -> Result<(), Fail> {
    let alloc = rt.alloc();
    for (asked, workers, begun) in CHECKS {
        let gate = Register::new(workers);
        let words = owned(alloc, asked)?;
        let mut source = SureSource::make(REFRESH.as_bytes().to_vec(alloc)?);
        let mut sink = MemSink::make(alloc, 1000, 1000, Vec::new(alloc))?;
        let _status = check(
            &rt,
            alloc,
            &words,
            &mut source,
            &mut sink,
            &gate,
            &mut Vec::new(alloc),
        );
        assert_eq!(rt; gate.came.load(Ordering::SeqCst), workers, "at {asked:?}");
        assert_eq!(rt; gate.begun.load(Ordering::SeqCst), begun, "at {asked:?}");
        assert!(rt; !gate.gave_up.load(Ordering::SeqCst), "at {asked:?}");
    }
    Ok(())
}
