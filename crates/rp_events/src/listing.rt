//! The events of a task.

ghost use Rattle.std.specs.Prelude.{◌≡◌, ◌++◌, ◌≤◌, Ok, Err, MatchResult, IfOk, OnOk};
ghost use Rattle.std.specs.Prelude.{All, flat_map, length, map, replicate};
ghost use Rattle.gadget_limits.specs.Limits.{most_outputs};
ghost use Rattle.rp_events.specs.Events.{event_with, selections};
ghost use Rattle.rp_events.specs.Questions.{IsEventOf, GivesEvents, event_of};
ghost use Rattle.rp_events.specs.Choices.{IsChoice, events_by, events_from, given_of, modes_of};

use crate::choices::{Choice, exact_choices};
use crate::event::Event;
use crate::index_sets::index_sets;
use crate::names::event_name;
use crate::output_sets::output_sets;
use crate::refusals::refuse;
use crate::rp::{Rp, RpError};
use crate::selections::selections;
use crate::whiches::whiches_of;
use gadget_tree::Gadget;
use mask_bytes::OutOfMemory;
use std::alloc::Global;
use wire_table::Which;

/// The events of a task at order `t`, in order. Whether there are any, and how many, is decided before one is listed.
pub fn events(alloc: Global, gadget: &Gadget, rp: Rp, t: u8) -> Result<Vec<Event>, RpError>
    ensures events { MatchResult result
        (λ events. GivesEvents rp gadget.now t (Ok (map event_of events.items)))
        (λ error. GivesEvents rp gadget.now t (Err error)) }
    ensures of_gadget { IfOk result (λ events. All (IsEventOf gadget.now) (map event_of events.items)) }
{
    // Called for its contract alone, which says what holds of every gadget.
    let _vars = gadget.vars();
    refuse(gadget, rp, t)?;
    let given = index_sets(alloc, gadget.shares(), t)?;
    let all_but_one = index_sets(alloc, gadget.shares(), gadget.shares() - 1)?;
    let exact = exact_choices(alloc, &given)?;
    Ok(listed(
        alloc,
        gadget,
        rp,
        &exact,
        &[Choice::AllButOne(&all_but_one)],
    )?)
}

// The events of a task, where these may be given of each output: by exact indices, or by the simulator's choice.
fn listed<'s>(
    alloc: Global,
    gadget: &Gadget,
    rp: Rp,
    exact: &'s [Choice<'s>],
    free: &'s [Choice<'s>],
) -> Result<Vec<Event>, OutOfMemory>
    requires exact { All (IsChoice gadget.now.shares) exact.now }
    requires free { All (IsChoice gadget.now.shares) free.now }
    ensures { IfOk result (λ events. map event_of events.items
        ≡ events_from rp gadget.now (map given_of exact.now) (map given_of free.now)) }
{
    let modes = modes_of(alloc, rp, exact, free)?;
    by_modes(alloc, gadget, rp, &modes, whiches_of(gadget, rp))
}

// The modes that a task has, where these may be given: composability has one, expandability both.
fn modes_of<'s>(
    alloc: Global,
    rp: Rp,
    exact: &'s [Choice<'s>],
    free: &'s [Choice<'s>],
) -> Result<Vec<&'s [Choice<'s>]>, OutOfMemory>
    ensures { IfOk result (λ modes. map (λ mode. mode.now) modes.items ≡ modes_of rp exact.now free.now) }
{
    let mut modes = Vec::new(alloc);
    modes.push(exact)?;
    if rp == Rp::Rpe {
        modes.push(free)?;
    }
    Ok(modes)
}

// The events of a task, where each output has one of these modes, each with what it may give.
fn by_modes(
    alloc: Global,
    gadget: &Gadget,
    rp: Rp,
    modes: &[&[Choice<'_>]],
    whiches: &[Which],
) -> Result<Vec<Event>, OutOfMemory>
    requires { All (λ choices. All (IsChoice gadget.now.shares) choices.now) modes.now }
    ensures { IfOk result (λ events. map event_of events.items ≡ flat_map (events_by gadget.now rp whiches.now)
        (selections (replicate (length gadget.now.outputs) (map (λ choices. map given_of choices.now) modes.now)))) }
{
    let outputs = gadget.outputs().len();
    let mut events = Vec::new(alloc);
    for one_each in &selections(alloc, &[modes; 2][..outputs])? {
        extend_events(alloc, gadget, rp, one_each, whiches, &mut events)?;
    }
    Ok(events)
}

// Adds the events of one mode of each output, each with what it may give.
fn extend_events(
    alloc: Global,
    gadget: &Gadget,
    rp: Rp,
    modes: &[&[Choice<'_>]],
    whiches: &[Which],
    events: &mut Vec<Event>,
) -> Result<(), OutOfMemory>
    requires modes { length modes.now ≡ length gadget.now.outputs }
    requires few { length modes.now ≤ most_outputs }
    requires choices { All (λ choices. All (IsChoice gadget.now.shares) choices.now) modes.now }
    ensures { OnOk result (map event_of events.new.items ≡ map event_of events.old.items
        ++ events_by gadget.now rp whiches.now (map (λ choices. map given_of choices.now) modes.now)) }
{
    for given in &selections(alloc, modes)? {
        push_each_which(alloc, gadget, rp, given, whiches, events)?;
    }
    Ok(())
}

// Adds the events that give these of the outputs.
fn push_each_which(
    alloc: Global,
    gadget: &Gadget,
    rp: Rp,
    given: &[Choice<'_>],
    whiches: &[Which],
    events: &mut Vec<Event>,
) -> Result<(), OutOfMemory>
    requires outputs { length given.now ≡ length gadget.now.outputs }
    requires few { length given.now ≤ most_outputs }
    requires choices { All (IsChoice gadget.now.shares) given.now }
    ensures { OnOk result (map event_of events.new.items ≡ map event_of events.old.items
        ++ map (event_with gadget.now rp (map given_of given.now)) whiches.now) }
{
    for which in whiches {
        events.push(event(alloc, gadget, rp, given, *which)?)?;
    }
    Ok(())
}

// The event that gives these of the outputs.
fn event(
    alloc: Global,
    gadget: &Gadget,
    rp: Rp,
    given: &[Choice<'_>],
    which: Which,
) -> Result<Event, OutOfMemory>
    requires outputs { length given.now ≡ length gadget.now.outputs }
    requires few { length given.now ≤ most_outputs }
    requires choices { All (IsChoice gadget.now.shares) given.now }
    ensures { IfOk result (λ event. event_of event ≡ event_with gadget.now rp (map given_of given.now) which) }
{
    Ok(Event {
        name: event_name(alloc, gadget, rp, given, which)?,
        sets: output_sets(alloc, given)?,
        which,
    })
}
