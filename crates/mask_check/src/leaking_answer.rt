//! The lists of random probing.

ghost use Rattle.std.specs.Prelude.{◌≡◌, ◌≤◌, ◌++◌, IfOk, MatchResult, length, map, false};
ghost use Rattle.tuple_model.specs.Limits.{most_items};
ghost use Rattle.mask_terms.specs.Tasks.{is_demo};
ghost use Rattle.wire_table.specs.Tables.{StandsFor};
ghost use Rattle.wire_table.specs.CodeItems.{item_of};
ghost use Rattle.report.specs.Report.{head, wires_line};
ghost use Rattle.mask_check.specs.Report.{total_weight};
ghost use Rattle.mask_check.specs.declared.asked.Asked.TheVariants as ask;
ghost use Rattle.mask_check.specs.Questions.{asked_by};
ghost use Rattle.mask_check.specs.Tallying.{state_of, tallying_of};
ghost use Rattle.mask_check.specs.Decisions.{Decides, Declines, IsReady};

use crate::answer::Answer;
use crate::event_answers::{add_events, event_answers};
use crate::greatest::add_greatest;
use crate::refusals::refused_events;
use crate::tallying::tally;
use check_workers::Gate;
use gadget_tree::Gadget;
use mask_bytes::OutOfMemory;
use mask_words::Settings;
use report::{Report, Status};
use rp_events::{Rp, events};
use std::alloc::Global;
use std::marker::Sync;
use std::thread::Threads;
use tallies::Tally;
use tuple_order::count;
use wire_table::{Item, WireTable, wire_items};

/// The failing tuples and the coefficients for each event of a task, or why there are none.
pub(crate) fn leaking_answer<R: Threads + Sync, G: Gate>(
    rt: &R,
    alloc: Global,
    gadget: &Gadget,
    table: &WireTable,
    settings: &Settings,
    rp: Rp,
    gate: &G,
    tallies: &mut Vec<Box<dyn Tally>>,
) -> Result<Answer, Status>
    requires table { StandsFor table.now gadget.now }
    requires settings { IsReady settings.now }
    requires asked { asked_by settings.now.task ≡ ask.Leaking rp }
    ensures { let tallying = tallying_of (λ b. state_of (kind b) (counts b)) tallies.old.items tallies.new.items in
        MatchResult result (Decides settings.now gadget.now tallying) (Declines settings.now gadget.now tallying) }
{
    let events = events(alloc, gadget, rp, settings.t).map_err(refused_events)?;
    let items = wire_items(alloc, gadget, table, settings.wires)?;
    let tuples = count(items.len() as u16, settings.size);
    let work = tuples * events.len() as u64;
    if work > settings.budget {
        return Err(Status::Budget(work));
    }
    let answers = event_answers(rt, alloc, gadget, table, settings, &events, gate)?;
    let mut report = head(alloc, gadget, settings, &items, tuples)?;
    add_events(settings, &events, &items, &answers, &mut report)?;
    add_greatest(alloc, settings, &events, &answers, &mut report)?;
    tally(settings, &items, &answers, tallies, &mut report)?;
    let status = Status::Listed;
    Ok(Answer { status, report })
}

// The lines above the events.
fn head(
    alloc: Global,
    gadget: &Gadget,
    settings: &Settings,
    items: &[Item],
    tuples: u64,
) -> Result<Report, OutOfMemory>
    requires few { length items.now ≤ most_items }
    requires check { is_demo settings.now.task ≡ false }
    ensures { IfOk result (λ report. report ≡
        head settings.now.task settings.now.t gadget.now (length items.now) settings.now.size tuples
        ++ wires_line settings.now.wires (total_weight (map item_of items.now))) }
{
    let mut report = Report::new(alloc);
    report.head(
        settings.task,
        settings.t,
        gadget,
        items.len() as u16,
        settings.size,
        tuples,
    )?;
    report.wires(settings.wires, wire_count(items))?;
    Ok(report)
}

// For how many wires items stand.
fn wire_count(items: &[Item]) -> u64
    requires { length items.now ≤ most_items }
    ensures { result ≡ total_weight (map item_of items.now) }
{
    items.iter().map(|item| u64::from(item.weight)).sum()
}
