//! Tallies: what they are fed, and what the report says of them.

use crate::fixture::{PAIR_REPORT, REFRESH, SUM, SUM_REPORT, check_as, check_tallied, check_whole};
use crate::own_tallies::{Dropped, FewSizes};
use gadget_tree::FileError;
use mask_bytes::{MemSink, SureSource};
use mask_check::{Label, NotFor, Status, Tally};
use std::sync::Arc;
use std::sync::atomic::{AtomicU64, Ordering};
use std::test::Fail;
use tallies::BySize;

// A check in which the tuple of both output shares fails, and no other.
const PAIR: [&str; 3] = ["sni", "2", "--tallies"];

// Its report with a tally of sizes that was never fed before, and with one that was fed the same tuple once.
const PAIR_TALLIED: [&str; 2] = [
    "check sni 2\ngadget shares 2 inputs 1 outputs 1 randoms 1 variables 5\nspace items 5 size 2 tuples 16\nfail 2 d0 d1\nverdict no\ntally size 2 1\n",
    "check sni 2\ngadget shares 2 inputs 1 outputs 1 randoms 1 variables 5\nspace items 5 size 2 tuples 16\nfail 2 d0 d1\nverdict no\ntally size 2 2\n",
];

#[test]
fn counts_go_on_where_the_same_tallies_are_handed_in_again(rt: HostRuntime) -> Result<(), Fail> {
    let alloc = rt.alloc();
    let mut tallies: Vec<Box<dyn Tally>> = Vec::new(alloc);
    tallies.push(Box::new(alloc, BySize::new())?)?;
    for report in PAIR_TALLIED {
        let outcome = check_tallied(&rt, &PAIR, REFRESH, &mut tallies)?;
        assert_eq!(rt; outcome.status, Status::No);
        assert_eq!(rt; outcome.text.as_str(), report);
    }
    Ok(())
}

#[test]
fn sizes_past_the_counts_of_a_tally_are_not_counted(rt: HostRuntime) -> Result<(), Fail> {
    let alloc = rt.alloc();
    let mut tallies: Vec<Box<dyn Tally>> = Vec::new(alloc);
    tallies.push(Box::new(alloc, FewSizes::new())?)?;
    let outcome = check_tallied(&rt, &PAIR, REFRESH, &mut tallies)?;
    assert_eq!(rt; outcome.status, Status::No);
    assert_eq!(rt; outcome.text.as_str(), PAIR_REPORT);
    Ok(())
}

#[test]
fn without_the_flag_no_tally_is_fed(rt: HostRuntime) -> Result<(), Fail> {
    let alloc = rt.alloc();
    let mut tallies: Vec<Box<dyn Tally>> = Vec::new(alloc);
    tallies.push(Box::new(alloc, BySize::new())?)?;
    let outcome = check_tallied(&rt, &["sni", "2"], REFRESH, &mut tallies)?;
    assert_eq!(rt; outcome.status, Status::No);
    assert_eq!(rt; outcome.text.as_str(), PAIR_REPORT);
    assert_eq!(rt; pairs(&tallies), Some(0));
    Ok(())
}

#[test]
fn caller_keeps_its_tallies(rt: HostRuntime) -> Result<(), Fail> {
    let alloc = rt.alloc();
    let drops = Arc::new(alloc, AtomicU64::new(0))?;
    let mut tallies: Vec<Box<dyn Tally>> = Vec::new(alloc);
    tallies.push(Box::new(alloc, Dropped::new(drops.clone()?))?)?;
    let outcome = check_tallied(&rt, &PAIR, REFRESH, &mut tallies)?;
    assert_eq!(rt; outcome.text.as_str(), PAIR_REPORT);
    assert_eq!(rt; tallies.len(), 1);
    assert_eq!(rt; drops.load(Ordering::SeqCst), 0);
    drop(tallies);
    assert_eq!(rt; drops.load(Ordering::SeqCst), 1);
    Ok(())
}

#[test]
fn flag_without_tallies_adds_nothing(rt: HostRuntime) -> Result<(), Fail> {
    let outcome = check_as(&rt, &["ni", "1", "--tallies"], SUM)?;
    assert_eq!(rt; outcome.status, Status::No);
    assert_eq!(rt; outcome.text.as_str(), SUM_REPORT);
    Ok(())
}

#[test]
fn tallies_are_fed_before_a_write_fault(rt: HostRuntime) -> Result<(), Fail> {
    let alloc = rt.alloc();
    let mut tallies: Vec<Box<dyn Tally>> = Vec::new(alloc);
    tallies.push(Box::new(alloc, BySize::new())?)?;
    let mut source = SureSource::make(REFRESH.as_bytes().to_vec(alloc)?);
    let sink = MemSink::make(alloc, 1000, 1, [1].to_vec(alloc)?)?;
    let outcome = check_whole(&rt, &PAIR, &mut source, sink, &mut tallies)?;
    assert_eq!(rt; outcome.status, Status::WriteFault);
    assert_eq!(rt; outcome.text.as_str(), "");
    assert_eq!(rt; pairs(&tallies), Some(1));
    Ok(())
}

// Words, files, and why there is no report.
const REFUSALS: [(&[&str], &str, Status); 4] = [
    (
        &["sni", "2", "--tallies", "--budget", "15"],
        REFRESH,
        Status::Budget(16),
    ),
    (
        &["rpc", "3", "--tallies"],
        REFRESH,
        Status::NotForGadget(NotFor::OrderTooLarge),
    ),
    (&PAIR, "#SHARES\n", Status::File(FileError::Syntax(1))),
    (
        &["sni", "2", "--tallies", "--size", "2"],
        REFRESH,
        Status::SizeNotUsed,
    ),
];

#[test]
fn checks_that_are_refused_feed_no_tally(rt: HostRuntime) -> Result<(), Fail> {
    let alloc = rt.alloc();
    let mut tallies: Vec<Box<dyn Tally>> = Vec::new(alloc);
    tallies.push(Box::new(alloc, BySize::new())?)?;
    for (asked, file, status) in REFUSALS {
        let outcome = check_tallied(&rt, asked, file, &mut tallies)?;
        assert_eq!(rt; outcome.status, status, "at {asked:?}");
        assert_eq!(rt; pairs(&tallies), Some(0), "at {asked:?}");
    }
    Ok(())
}

// How many tuples of two items the first of these tallies has counted, if it counts tuples of two items at place 2.
fn pairs(tallies: &[Box<dyn Tally>]) -> Option<u64> {
    let cell = tallies.first()?.cell(2)?;
    match cell.label {
        Label::Size(2) => Some(cell.count),
        _ => None,
    }
}
