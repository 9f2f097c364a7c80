//! Writes that fail, and sinks that are full, at every place.
ghost use Rattle.std.specs.Prelude.{◌≤◌};

use crate::fixture::{Outcome, PAIR_REPORT, REFRESH, check_pair};
use mask_bytes::{MemSink, SureSource};
use mask_check::Status;
use std::marker::Sync;
use std::test::Fail;
use std::thread::Threads;

// Checks the refresh into a sink with `room`, which takes `most` bytes in a call and fails at the calls of these numbers.
fn check_into<R: AllocGlobal + Threads + Sync>(
    rt: &R,
    room: usize,
    most: usize,
    fails: &[u32],
) -> Result<Outcome, Fail>
    requires { 1 ≤ most }
{
    let alloc = rt.alloc();
    let mut source = SureSource::make(REFRESH.as_bytes().to_vec(alloc)?);
    let sink = MemSink::make(alloc, room, most, fails.to_vec(alloc)?)?;
    check_pair(rt, &mut source, sink)
}

#[test]
fn write_fault_leaves_what_was_written(rt: HostRuntime) -> Result<(), Fail> {
    let outcome = check_into(&rt, 1000, 16, &[2])?;
    assert_eq!(rt; outcome.status, Status::WriteFault);
    assert_eq!(rt; outcome.text.as_str(), "check sni 2\ngadg");
    Ok(())
}

#[test]
fn write_fault_at_any_byte_leaves_those_before_it(rt: HostRuntime) -> Result<(), Fail> {
    for (written, call) in (0..PAIR_REPORT.len()).zip(1u32..) {
        let outcome = check_into(&rt, 1000, 1, &[call])?;
        assert_eq!(rt; outcome.status, Status::WriteFault, "at call {call}");
        assert_eq!(rt;
            Some(outcome.text.as_str()),
            PAIR_REPORT.get(..written),
            "at call {call}"
        );
    }
    Ok(())
}

#[test]
fn full_sink_holds_what_found_room(rt: HostRuntime) -> Result<(), Fail> {
    for room in 0..PAIR_REPORT.len() {
        let outcome = check_into(&rt, room, 1000, &[])?;
        assert_eq!(rt; outcome.status, Status::WriteFault, "with room for {room}");
        assert_eq!(rt;
            Some(outcome.text.as_str()),
            PAIR_REPORT.get(..room),
            "with room for {room}"
        );
    }
    Ok(())
}

#[test]
fn report_that_just_fits_is_written(rt: HostRuntime) -> Result<(), Fail> {
    assert_eq!(rt; PAIR_REPORT.len(), 124);
    let whole = [
        check_into(&rt, 124, 1000, &[])?,
        check_into(&rt, 1000, 1, &[125])?,
    ];
    for outcome in &whole {
        assert_eq!(rt; outcome.status, Status::No);
        assert_eq!(rt; outcome.text.as_str(), PAIR_REPORT);
    }
    Ok(())
}
