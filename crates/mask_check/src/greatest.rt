//! The greatest coefficients of the events of each kind.

ghost use Rattle.std.specs.Prelude.{◌≡◌, ◌++◌, OnOk, IfOk, map, option_map};
ghost use Rattle.rp_events.specs.Questions.{event_of};
ghost use Rattle.report.specs.Additions.{HasOwnWord};
ghost use Rattle.mask_check.specs.Report.{coefficients_for, greater_each, greatest_lines, greatest_of, greatest_part};
ghost use Rattle.mask_check.specs.Decisions.{answer_of, event_questions, greatest_with};

use crate::answer::QuestionAnswer;
use mask_bytes::OutOfMemory;
use mask_words::Settings;
use report::Report;
use rp_events::Event;
use std::alloc::Global;
use wire_table::Which;

// The inputs that events ask of, in the order of a report's last lines.
const WHICHES: [Which; 4] = [Which::Any, Which::Input(0), Which::Input(1), Which::Both];

/// Adds a line of the greatest coefficients for each kind of event that occurs.
pub(crate) fn add_greatest(
    alloc: Global,
    settings: &Settings,
    events: &[Event],
    answers: &[QuestionAnswer],
    report: &mut Report,
) -> Result<(), OutOfMemory>
    ensures { OnOk result (report.new ≡ report.old ++ greatest_lines
        (event_questions settings.now (map event_of events.now)) (map answer_of answers.now)) }
{
    for which in WHICHES {
        add_greatest_of(alloc, settings, which, events, answers, report)?;
    }
    Ok(())
}

// Adds the line of the greatest coefficients of the events that ask of these inputs, where there are any.
fn add_greatest_of(
    alloc: Global,
    settings: &Settings,
    which: Which,
    events: &[Event],
    answers: &[QuestionAnswer],
    report: &mut Report,
) -> Result<(), OutOfMemory>
    requires word { HasOwnWord which }
    ensures { OnOk result (report.new ≡ report.old ++ greatest_part which (greatest_of (coefficients_for which
        (event_questions settings.now (map event_of events.now)) (map answer_of answers.now)))) }
{
    if let Some(numbers) = greatest_for(alloc, settings, which, events, answers)? {
        report.greatest(which, &numbers)?;
    }
    Ok(())
}

// At each place the greatest coefficient there of the events that ask of these inputs, where there are any.
fn greatest_for(
    alloc: Global,
    settings: &Settings,
    which: Which,
    events: &[Event],
    answers: &[QuestionAnswer],
) -> Result<Option<Vec<u128>>, OutOfMemory>
    ensures { IfOk result (λ found. option_map (λ numbers. numbers.items) found ≡ greatest_of (coefficients_for which
        (event_questions settings.now (map event_of events.now)) (map answer_of answers.now))) }
{
    let mut found: Option<Vec<u128>> = None;
    for (event, answer) in events.iter().zip(answers) {
        if which == event.which {
            found = Some(greatest_with(alloc, found, &answer.coefficients)?);
        }
    }
    Ok(found)
}

// The greatest numbers so far, with these also.
fn greatest_with(
    alloc: Global,
    found: Option<Vec<u128>>,
    numbers: &[u128],
) -> Result<Vec<u128>, OutOfMemory>
    ensures { IfOk result
        (λ greatest. greatest.items ≡ greatest_with (option_map (λ numbers. numbers.items) found) numbers.now) }
{
    match found {
        None => Ok(Vec::from_slice(alloc, numbers)?),
        Some(greatest) => greater_each(alloc, &greatest, numbers),
    }
}

// At each place the greater of the two numbers there.
fn greater_each(alloc: Global, a: &[u128], b: &[u128]) -> Result<Vec<u128>, OutOfMemory>
    ensures { IfOk result (λ numbers. numbers.items ≡ greater_each a.now b.now) }
{
    let mut greater = Vec::with_capacity(alloc, a.len())?;
    for (left, right) in a.iter().zip(b) {
        greater.push((*left).max(*right))?;
    }
    Ok(greater)
}
