//! Workers at work at the same time, as a gate sees them.

use crate::fixture::{PAIR_REPORT, REFRESH, owned};
use check_workers::minimal;
use cover_core::Query;
use gadget_tree::read_gadget;
use mask_bytes::{MemSink, SureSource};
use mask_check::{Gate, Status, check};
use notions::{Notion, NotionQuery};
use std::sync::atomic::{AtomicBool, Ordering};
use std::test::Fail;
use std::thread::yield_now;
use tuple_order::count;
use wire_table::WireTable;

// Keeps each of two workers at its first block until the other one has been at a block.
#[derive(Drop)]
struct Meeting {
    first_came: AtomicBool,
    second_came: AtomicBool,
    gave_up: AtomicBool,
}

impl Meeting {
    fn new() -> Meeting {
        Meeting {
            first_came: AtomicBool::new(false),
            second_came: AtomicBool::new(false),
            gave_up: AtomicBool::new(false),
        }
    }

    // Whether both workers came to a block, and neither waited in vain.
    fn is_met(&self) -> bool {
        self.first_came.load(Ordering::SeqCst)
            && self.second_came.load(Ordering::SeqCst)
            && !self.gave_up.load(Ordering::SeqCst)
    }
}

impl Gate for Meeting {
    fn at_block(&self, worker: u16, _block: u64) {
        let (own, other) = if worker == 0 {
            (&self.first_came, &self.second_came)
        } else {
            (&self.second_came, &self.first_came)
        };
        own.store(true, Ordering::SeqCst);
        for _turn in 0..50_000_000 {
            if other.load(Ordering::SeqCst) {
                return;
            }
            yield_now();
        }
        self.gave_up.store(true, Ordering::SeqCst);
    }
}

#[test]
fn two_workers_meet(rt: HostRuntime) -> Result<(), Fail> {
    let alloc = rt.alloc();
    let gate = Meeting::new();
    let words = owned(
        alloc,
        &["mask", "sni", "2", "--workers", "2", "--block", "1"],
    )?;
    let mut source = SureSource::make(REFRESH.as_bytes().to_vec(alloc)?);
    let mut sink = MemSink::make(alloc, 1000, 1000, Vec::new(alloc))?;
    let status = check(
        &rt,
        alloc,
        &words,
        &mut source,
        &mut sink,
        &gate,
        &mut Vec::new(alloc),
    );
    assert!(rt; gate.is_met());
    assert_eq!(rt; status, Status::No);
    assert_eq!(rt; sink.bytes(), PAIR_REPORT.as_bytes());
    Ok(())
}

#[test]
fn two_workers_of_a_query_meet(rt: HostRuntime) -> Result<(), Fail> {
    let alloc = rt.alloc();
    assert!(rt; REFRESH.len() <= 1_048_576);
    let gadget = read_gadget(alloc, REFRESH.as_bytes())?;
    let table = WireTable::make(alloc, &gadget)?;
    let query = NotionQuery::make(alloc, &gadget, &table, Notion::Sni, 2)?;
    assert!(rt; count(query.items(), query.size()) <= 67_108_864);
    let gate = Meeting::new();
    let found = minimal(&rt, alloc, &query, 2, 1, 65536, &gate)?;
    assert!(rt; gate.is_met());
    assert_eq!(rt; found.live().len(), 1);
    assert_eq!(rt; found.live().tuple(0).items(), [3, 4].as_slice());
    Ok(())
}
