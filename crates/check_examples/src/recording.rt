//! In which order a check feeds its tallies, and with which numbers of events.

ghost use Rattle.std.specs.Prelude.{[]};
ghost use Rattle.std.proofs.Common.{zero-le};
ghost use Rattle.tallies.specs.declared.tally.TallyKind.TheVariants.{Size};

use crate::fixture::{REFRESH, check_tallied};
use mask_check::{Cell, Tally};
use std::sync::Arc;
use std::sync::atomic::{AtomicU64, Ordering};
use std::test::Fail;
use tuple_order::Tuple;

// A tally that counts nothing, and writes down what it is fed: the event and the items, each as a hexadecimal digit.
#[derive(Drop)]
struct Recorder {
    fed: Arc<AtomicU64>,
}

impl Tally for Recorder {
    ghost kind = { λ _. Size };

    ghost counts = { λ _. [] };

    fn feed(&mut self, event: u32, t: &Tuple) {
        let mut fed = appended(self.fed.load(Ordering::SeqCst), u64::from(event));
        for &item in t.items() {
            fed = appended(fed, u64::from(item));
        }
        self.fed.store(fed, Ordering::SeqCst);
    }

    fn cell(&self, _k: u32) -> Option<Cell> {
        None
    }

    ghost few = { λ _. zero-le };
}

fn appended(digits: u64, digit: u64) -> u64 {
    digits.wrapping_mul(16).wrapping_add(digit)
}

// Words, and the events with their failing tuples, in order. The items of `sni` are the five variables, of which 3 and 4 are
// the output shares; those that leak are a0, a1 and r0.
const FED: [(&[&str], u64); 3] = [
    (&["sni", "2", "--tallies"], 0x034),
    (&["rpc", "1", "--size", "3", "--tallies"], 0x001_012_101_102),
    (
        &["rpe", "1", "--size", "3", "--tallies"],
        0x001_012_101_102_201,
    ),
];

#[test]
fn tallies_are_fed_event_by_event_in_the_order_of_the_report(rt: HostRuntime) -> Result<(), Fail> {
    let alloc = rt.alloc();
    for (asked, want) in FED {
        let fed = Arc::new(alloc, AtomicU64::new(0))?;
        let mut tallies: Vec<Box<dyn Tally>> = Vec::new(alloc);
        tallies.push(Box::new(alloc, Recorder { fed: fed.clone()? })?)?;
        let _outcome = check_tallied(&rt, asked, REFRESH, &mut tallies)?;
        assert_eq!(rt; fed.load(Ordering::SeqCst), want, "at {asked:?}");
    }
    Ok(())
}
