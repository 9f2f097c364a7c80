//! The answers to the questions of events, and their lines.

ghost use Rattle.std.specs.Prelude.{◌≡◌, ◌≤◌, ◌*◌, ◌++◌, All, IfOk, OnOk, length, map};
ghost use Rattle.wire_table.specs.Tables.{StandsFor};
ghost use Rattle.wire_table.specs.CodeItems.{item_of};
ghost use Rattle.rp_events.specs.Questions.{IsEventOf, event_of};
ghost use Rattle.mask_words.specs.Options.{most_budget};
ghost use Rattle.mask_check.specs.Questions.{IsAnswerTo, items, tuple_count};
ghost use Rattle.mask_check.specs.Report.{answer_lines, question_lines};
ghost use Rattle.mask_check.specs.Decisions.{answer_of, event_question, event_questions, AreAnswersTo};
ghost use Rattle.mask_check.specs.Decisions.{IsLeaking, IsOfItems, IsReady};

use crate::answer::QuestionAnswer;
use check_workers::{Gate, minimal};
use gadget_tree::Gadget;
use mask_bytes::OutOfMemory;
use mask_words::Settings;
use report::Report;
use rp_events::{Event, EventQuery};
use std::alloc::Global;
use std::marker::Sync;
use std::thread::Threads;
use wire_counts::coefficients;
use wire_table::{Item, WireTable};

/// The answer to the question of each event.
pub(crate) fn event_answers<R: Threads + Sync, G: Gate>(
    rt: &R,
    alloc: Global,
    gadget: &Gadget,
    table: &WireTable,
    settings: &Settings,
    events: &[Event],
    gate: &G,
) -> Result<Vec<QuestionAnswer>, OutOfMemory>
    requires table { StandsFor table.now gadget.now }
    requires settings { IsReady settings.now }
    requires leaking { IsLeaking settings.now }
    requires events { All (IsEventOf gadget.now) (map event_of events.now) }
    requires few { tuple_count settings.now gadget.now * length events.now ≤ most_budget }
    ensures { IfOk result (λ answers.
        AreAnswersTo settings.now gadget.now (map event_of events.now) (map answer_of answers.items)) }
{
    let mut answers = Vec::with_capacity(alloc, events.len())?;
    for event in events {
        answers.push(event_answer(rt, alloc, gadget, table, settings, event, gate)?)?;
    }
    Ok(answers)
}

// The answer to the question of an event.
fn event_answer<R: Threads + Sync, G: Gate>(
    rt: &R,
    alloc: Global,
    gadget: &Gadget,
    table: &WireTable,
    settings: &Settings,
    event: &Event,
    gate: &G,
) -> Result<QuestionAnswer, OutOfMemory>
    requires table { StandsFor table.now gadget.now }
    requires settings { IsReady settings.now }
    requires leaking { IsLeaking settings.now }
    requires event { IsEventOf gadget.now (event_of event.now) }
    requires few { tuple_count settings.now gadget.now ≤ most_budget }
    ensures { IfOk result (λ answer.
        IsAnswerTo settings.now gadget.now (event_question settings.now (event_of event.now)) (answer_of answer)) }
{
    let query = EventQuery::make(
        alloc,
        gadget,
        table,
        event,
        settings.t,
        settings.size,
        settings.wires,
    )?;
    let found = minimal(
        rt,
        alloc,
        &query,
        settings.workers,
        settings.block,
        settings.words,
        gate,
    )?;
    let coefficients = coefficients(rt, alloc, query.list(), found.live(), settings.size)?;
    Ok(QuestionAnswer {
        found,
        coefficients,
    })
}

/// Adds each event with its answer, whose tuples are of these items.
pub(crate) fn add_events(
    settings: &Settings,
    events: &[Event],
    items: &[Item],
    answers: &[QuestionAnswer],
    report: &mut Report,
) -> Result<(), OutOfMemory>
    requires there { All (IsOfItems (map item_of items.now)) (map answer_of answers.now) }
    ensures { OnOk result (report.new ≡ report.old ++ answer_lines (map item_of items.now)
        (event_questions settings.now (map event_of events.now)) (map answer_of answers.now)) }
{
    for (event, answer) in events.iter().zip(answers) {
        add_event(settings, event, items, answer, report)?;
    }
    Ok(())
}

// Adds an event with its answer.
fn add_event(
    settings: &Settings,
    event: &Event,
    items: &[Item],
    answer: &QuestionAnswer,
    report: &mut Report,
) -> Result<(), OutOfMemory>
    requires there { IsOfItems (map item_of items.now) (answer_of answer.now) }
    ensures { OnOk result (report.new ≡ report.old ++ question_lines (map item_of items.now)
        (event_question settings.now (event_of event.now)) (answer_of answer.now)) }
{
    report.event(&event.name)?;
    report.fails(items, answer.found.live())?;
    report.coefficients(&answer.coefficients)?;
    Ok(())
}
