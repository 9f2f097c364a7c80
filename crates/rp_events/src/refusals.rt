//! Why a task has no events.

ghost use Rattle.std.specs.Prelude.{◌≡◌, MatchResult, Some, None};
ghost use Rattle.rp_events.specs.Events.{event_count, has_large_order, has_many_inputs, refusal};

use crate::index_sets::count_index_sets;
use crate::rp::{Rp, RpError};
use crate::whiches::whiches_of;
use gadget_tree::Gadget;

// There may be at most this many events.
const MOST_EVENTS: u64 = 65536;

/// Why a task has no events, if so. None of them is listed for it.
pub(crate) fn refuse(gadget: &Gadget, rp: Rp, t: u8) -> Result<(), RpError>
    ensures { MatchResult result
        (λ _. refusal rp gadget.now t ≡ None)
        (λ error. refusal rp gadget.now t ≡ Some error) }
{
    if has_many_inputs(gadget, rp) {
        return Err(RpError::ManyInputs);
    }
    if has_large_order(gadget, rp, t) {
        return Err(RpError::OrderTooLarge);
    }
    let count = event_count(gadget, rp, t);
    if count > MOST_EVENTS {
        return Err(RpError::ManyEvents(count));
    }
    Ok(())
}

// Whether expandability would ask over more than two inputs.
fn has_many_inputs(gadget: &Gadget, rp: Rp) -> bool
    ensures { result ≡ has_many_inputs rp gadget.now }
{
    match rp {
        Rp::Rpc => false,
        Rp::Rpe => 2 < gadget.inputs().len(),
    }
}

// Whether more shares are given than the task can give.
fn has_large_order(gadget: &Gadget, rp: Rp, t: u8) -> bool
    ensures { result ≡ has_large_order rp gadget.now t }
{
    match rp {
        Rp::Rpc => gadget.shares() < t,
        Rp::Rpe => gadget.shares() <= t,
    }
}

// How many events there are: what each output may give and over which inputs is asked are chosen apart.
fn event_count(gadget: &Gadget, rp: Rp, t: u8) -> u64
    ensures { result ≡ event_count rp gadget.now t }
{
    let outputs = gadget.outputs().len() as u32;
    let exact = count_index_sets(gadget.shares(), t);
    match rp {
        Rp::Rpc => exact.pow(outputs),
        Rp::Rpe => (exact + 1).pow(outputs) * whiches_of(gadget, rp).len() as u64,
    }
}
