//! A check over std's readers and writers.

use crate::fixture::{SUM, SUM_REPORT, owned};
use mask_bytes::{StdSink, StdSource};
use mask_check::{OpenGate, Status, check};
use std::test::Fail;

#[test]
fn std_readers_and_writers_give_the_same_report(rt: HostRuntime) -> Result<(), Fail> {
    let alloc = rt.alloc();
    let words = owned(alloc, &["mask", "ni", "1"])?;
    let mut report: Vec<u8> = Vec::new(alloc);
    let status = check(
        &rt,
        alloc,
        &words,
        &mut StdSource::make(SUM.as_bytes()),
        &mut StdSink::make(&mut report),
        &OpenGate,
        &mut Vec::new(alloc),
    );
    assert_eq!(rt; status, Status::No);
    assert_eq!(rt; report.as_slice(), SUM_REPORT.as_bytes());
    Ok(())
}
