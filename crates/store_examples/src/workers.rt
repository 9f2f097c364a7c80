//! Two workers at work at the same time, of whom one finds what the other stored.

ghost use Rattle.std.specs.Prelude.{◌≤◌, Contains};

use check_workers::{Gate, minimal};
use cover_core::{Query, Question};
use mask_bytes::OutOfMemory;
use std::alloc::Global;
use std::sync::atomic::{AtomicBool, AtomicU64, Ordering};
use std::sync::ledger::Ledger;
use std::test::Fail;
use std::thread::yield_now;
use tuple_order::{Steps, Tuple};

// Counts how often a gate was called at each rank, and how often each tuple was judged, and keeps a caller waiting
// until the gate was called at a rank.
#[derive(Drop)]
struct Meeting {
    // One bit a rank.
    came: AtomicU64,
    // One hexadecimal digit for each of (), (0), (1) and (0, 1), in this order, from the lowest.
    judged: AtomicU64,
    gave_up: AtomicBool,
}

impl Meeting {
    fn new() -> Meeting {
        Meeting {
            came: AtomicU64::new(0),
            judged: AtomicU64::new(0),
            gave_up: AtomicBool::new(false),
        }
    }

    // Waits until the gate was called at a rank below 64, but not for ever.
    fn wait_for(&self, rank: u64) {
        for _turn in 0..50_000_000 {
            if self.came.load(Ordering::SeqCst) & (1 << (rank % 64)) != 0 {
                return;
            }
            yield_now();
        }
        self.gave_up.store(true, Ordering::SeqCst);
    }
}

// Keeps the worker that is at rank 2 until a worker is at rank 3.
impl Gate for Meeting {
    fn at_block(&self, _worker: u16, block: u64) {
        self.came.fetch_or(1 << (block % 64), Ordering::SeqCst);
        if block == 2 {
            self.wait_for(3);
        }
    }
}

// A tuple of at most two of two items fails exactly where it has item 0. Who judges the empty tuple waits until a worker
// is at rank 2.
#[derive(Drop)]
struct HasFirst<'a> {
    meeting: &'a Meeting,
}

impl<'a> Question for HasFirst<'a> {
    ghost items = { λ _. 2 };

    ghost size = { λ _. 2 };

    ghost Fails = { λ _ t. Contains t 0 };
}

impl<'a> Query for HasFirst<'a> {
    type Scratch = ();

    ghost Fits = { λ _ _. Unit {0} };

    fn items(&self) -> u16 {
        2
    }

    fn size(&self) -> u8 {
        2
    }

    fn scratch(&self, _alloc: Global) -> Result<(), OutOfMemory> {
        Ok(())
    }

    fn judge<L: Ledger>(&self, _scratch: &mut (), t: &Tuple, steps: &mut Steps<L>) -> bool {
        steps.tick();
        let digit = number(t.items());
        self.meeting
            .judged
            .fetch_add(1 << (4 * digit), Ordering::SeqCst);
        if digit == 0 {
            self.meeting.wait_for(2);
        }
        t.items().contains(&0)
    }
}

// The rank of a tuple of at most two of two items.
fn number(items: &[u16]) -> u64
    ensures { result ≤ 3 }
{
    if items.len() > 1 {
        return 3;
    }
    if items.is_empty() {
        return 0;
    }
    if items[0] == 0 { 1 } else { 2 }
}

#[test]
fn two_workers_share(rt: HostRuntime) -> Result<(), Fail> {
    let meeting = Meeting::new();
    let query = HasFirst { meeting: &meeting };
    let closed = minimal(&rt, rt.alloc(), &query, 2, 1, 4, &meeting)?;
    assert!(rt; !meeting.gave_up.load(Ordering::SeqCst));
    assert_eq!(rt; closed.live().len(), 1);
    assert_eq!(rt; closed.live().tuple(0).items(), [0].as_slice());
    assert_eq!(rt; closed.cursor(), 4);
    assert_eq!(rt; closed.words(), 4);
    // The first three tuples were judged once each, and (0, 1) was not.
    assert_eq!(rt; meeting.judged.load(Ordering::SeqCst), 0x0111);
    Ok(())
}
