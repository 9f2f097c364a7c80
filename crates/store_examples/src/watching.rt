//! A query that looks whether the gate was called before the first tuple of a block is judged.

ghost use Rattle.std.specs.Prelude.{◌<◌};

use check_workers::{Gate, minimal};
use cover_core::{Query, Question};
use mask_bytes::OutOfMemory;
use std::alloc::Global;
use std::sync::atomic::{AtomicBool, AtomicU64, Ordering};
use std::sync::ledger::Ledger;
use std::test::Fail;
use tuple_order::{Steps, Tuple, rank};

// Marks each block that was begun, and tells whether a tuple was judged before its block was.
#[derive(Drop)]
struct Watch {
    block: u64,
    begun: AtomicU64,
    judged: AtomicU64,
    is_early: AtomicBool,
    ghost some_ranks: { 0 < block },
}

impl Gate for Watch {
    fn at_block(&self, _worker: u16, block: u64) {
        self.begun
            .fetch_or(1 << (block / self.block % 64), Ordering::SeqCst);
    }
}

// No tuple of at most two of four items fails, and each that is judged is shown to the watch.
#[derive(Drop)]
struct Watched<'a> {
    watch: &'a Watch,
}

impl<'a> Question for Watched<'a> {
    ghost items = { λ _. 4 };

    ghost size = { λ _. 2 };

    ghost Fails = { λ _ _. ⊥ };
}

impl<'a> Query for Watched<'a> {
    type Scratch = ();

    ghost Fits = { λ _ _. Unit {0} };

    fn items(&self) -> u16 {
        4
    }

    fn size(&self) -> u8 {
        2
    }

    fn scratch(&self, _alloc: Global) -> Result<(), OutOfMemory> {
        Ok(())
    }

    fn judge<L: Ledger>(&self, _scratch: &mut (), t: &Tuple, steps: &mut Steps<L>) -> bool {
        steps.tick();
        let number = rank(4, 2, t) / self.watch.block;
        self.watch.judged.fetch_add(1, Ordering::SeqCst);
        if self.watch.begun.load(Ordering::SeqCst) & (1 << (number % 64)) == 0 {
            self.watch.is_early.store(true, Ordering::SeqCst);
        }
        false
    }
}

#[test]
fn the_gate_is_called_before_the_first_tuple_of_a_block_is_judged(
    rt: HostRuntime,
) -> Result<(), Fail> {
    for workers in [1, 3] {
        let watch = Watch {
            block: 2,
            begun: AtomicU64::new(0),
            judged: AtomicU64::new(0),
            is_early: AtomicBool::new(false),
        };
        let query = Watched { watch: &watch };
        let closed = minimal(&rt, rt.alloc(), &query, workers, 2, 4, &watch)?;
        assert!(rt; closed.live().is_empty());
        assert_eq!(rt; watch.judged.load(Ordering::SeqCst), 11, "{workers}");
        assert!(rt; !watch.is_early.load(Ordering::SeqCst), "{workers}");
    }
    Ok(())
}
