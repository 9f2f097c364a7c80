//! Reads that fail, at every place. The file has 61 bytes, and the call after the last of them tells the end.

use crate::fixture::{Outcome, PAIR_REPORT, REFRESH, check_pair, source_of};
use mask_bytes::MemSink;
use mask_check::Status;
use std::marker::Sync;
use std::test::Fail;
use std::thread::Threads;

// Checks the refresh, read and written a byte a call, from a source that fails at this call.
fn check_failing<R: AllocGlobal + Threads + Sync>(rt: &R, call: u32) -> Result<Outcome, Fail> {
    let alloc = rt.alloc();
    let mut source = source_of(alloc, REFRESH, 1, &[call])?;
    let sink = MemSink::make(alloc, 1000, 1, Vec::new(alloc))?;
    check_pair(rt, &mut source, sink)
}

#[test]
fn read_fault_at_any_byte_or_the_end_writes_nothing(rt: HostRuntime) -> Result<(), Fail> {
    assert_eq!(rt; REFRESH.len(), 61);
    for call in 1..=62u32 {
        let outcome = check_failing(&rt, call)?;
        assert_eq!(rt; outcome.status, Status::ReadFault, "at call {call}");
        assert_eq!(rt; outcome.text.as_str(), "", "at call {call}");
    }
    Ok(())
}

#[test]
fn fault_behind_the_end_is_never_met(rt: HostRuntime) -> Result<(), Fail> {
    let outcome = check_failing(&rt, 63)?;
    assert_eq!(rt; outcome.status, Status::No);
    assert_eq!(rt; outcome.text.as_str(), PAIR_REPORT);
    Ok(())
}
