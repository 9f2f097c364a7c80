//! Demonstrations: the gadget is made, and nothing is read.

use crate::fixture::{SUM, check_whole, source_of};
use mask_bytes::{MemSink, ReadError, SureSource, read_whole};
use mask_check::Status;
use std::test::Fail;

const MULTIPLICATION_REPORT: &str =
    "check sni 1\ngadget shares 2 inputs 2 outputs 1 randoms 1 variables 13\nspace items 13 size 1 tuples 14\nverdict yes\n";

#[test]
fn demonstration_leaves_all_bytes_in_the_source(rt: HostRuntime) -> Result<(), Fail> {
    let alloc = rt.alloc();
    let mut source = SureSource::make(SUM.as_bytes().to_vec(alloc)?);
    let sink = MemSink::make(alloc, 1000, 1000, Vec::new(alloc))?;
    let outcome = check_whole(&rt, &["demo", "2"], &mut source, sink, &mut Vec::new(alloc))?;
    assert_eq!(rt; outcome.status, Status::Yes);
    let left = read_whole(alloc, &mut source, 1000)?;
    assert_eq!(rt; left.as_slice(), SUM.as_bytes());
    Ok(())
}

#[test]
fn demonstration_meets_no_read_fault(rt: HostRuntime) -> Result<(), Fail> {
    let alloc = rt.alloc();
    let mut source = source_of(alloc, SUM, 1000, &[1])?;
    let sink = MemSink::make(alloc, 1000, 1000, Vec::new(alloc))?;
    let outcome = check_whole(&rt, &["demo", "2"], &mut source, sink, &mut Vec::new(alloc))?;
    assert_eq!(rt; outcome.status, Status::Yes);
    assert_eq!(rt; outcome.text.as_str(), MULTIPLICATION_REPORT);
    // The first call of the source, which fails, comes only now.
    let first = read_whole(alloc, &mut source, 1000).err();
    assert_eq!(rt; first, Some(ReadError::ReadFault));
    Ok(())
}

#[test]
fn write_fault_of_a_demonstration_leaves_what_was_written(rt: HostRuntime) -> Result<(), Fail> {
    let alloc = rt.alloc();
    let mut source = SureSource::make(Vec::new(alloc));
    let sink = MemSink::make(alloc, 1000, 16, [2].to_vec(alloc)?)?;
    let outcome = check_whole(&rt, &["demo", "2"], &mut source, sink, &mut Vec::new(alloc))?;
    assert_eq!(rt; outcome.status, Status::WriteFault);
    assert_eq!(rt; outcome.text.as_str(), "check sni 1\ngadg");
    Ok(())
}
