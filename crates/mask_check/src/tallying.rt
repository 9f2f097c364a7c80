//! Feeding the tallies, and their lines in the report.

ghost use Rattle.std.specs.Prelude.{◌≡◌, ◌≤◌, [], ◌∷◌, ◌++◌, List, OnOk, map, flat_map, length, slice_get};
ghost use Rattle.wire_table.specs.CodeItems.{item_of};
ghost use Rattle.tallies.specs.Counting.{cells, fed, most_labels};
ghost use Rattle.mask_check.specs.Decisions.{answer_of};
ghost use Rattle.mask_check.specs.Tallying.{tally_lines, printed, state_of, tally_part, tallying_of, AreFed};

use crate::answer::QuestionAnswer;
use antichain_list::Antichain;
use mask_bytes::OutOfMemory;
use mask_words::Settings;
use report::Report;
use tallies::{Cell, Tally};
use tuple_order::Tuple;
use wire_table::Item;

// No tally has more cells.
const MOST_CELLS: u32 = 65_536;

/// Where the settings ask for tallies: feeds each the failing tuples of these answers, in order, and adds its lines.
/// Memory may be refused to the lines, but to no feeding.
pub(crate) fn tally(
    settings: &Settings,
    items: &[Item],
    answers: &[QuestionAnswer],
    tallies: &mut Vec<Box<dyn Tally>>,
    report: &mut Report,
) -> Result<(), OutOfMemory>
    ensures fed { AreFed settings.now (map answer_of answers.now)
        (tallying_of (λ b. state_of (kind b) (counts b)) tallies.old.items tallies.new.items) }
    ensures added { OnOk result
        (report.new ≡ report.old ++ tally_part settings.now (map item_of items.now)
        (map (λ b. state_of (kind b) (counts b)) tallies.new.items)) }
{
    if settings.tallies {
        feed_answers(answers, tallies);
        add_tallies(items, tallies, report)?;
    }
    Ok(())
}

// Feeds each tally the failing tuples of these answers, in order. Events past the greatest number of 32 bits have that
// number.
fn feed_answers(answers: &[QuestionAnswer], tallies: &mut Vec<Box<dyn Tally>>)
    ensures { map (λ b. state_of (kind b) (counts b)) tallies.new.items
        ≡ map (λ state. fed state (printed (map answer_of answers.now)))
        (map (λ b. state_of (kind b) (counts b)) tallies.old.items) }
{
    for (event, answer) in answers.iter().enumerate() {
        let event = u32::try_from(event).unwrap_or(u32::MAX);
        feed_answer(event, answer.found.live(), tallies);
    }
}

// Feeds each tally these failing tuples, in order.
fn feed_answer(event: u32, failing: &Antichain, tallies: &mut Vec<Box<dyn Tally>>)
    ensures { map (λ b. state_of (kind b) (counts b)) tallies.new.items
        ≡ map (λ state. fed state failing.now) (map (λ b. state_of (kind b) (counts b)) tallies.old.items) }
{
    for place in 0..failing.len() {
        feed_each(event, &failing.tuple(place), tallies);
    }
}

// Feeds each tally a tuple.
fn feed_each(event: u32, t: &Tuple, tallies: &mut Vec<Box<dyn Tally>>)
    ensures { map (λ b. state_of (kind b) (counts b)) tallies.new.items
        ≡ map (λ state. fed state (t.now ∷ [])) (map (λ b. state_of (kind b) (counts b)) tallies.old.items) }
{
    for tally in tallies.iter_mut() {
        feed_tally(event, t, tally);
    }
}

// Feeds a tally a tuple.
fn feed_tally(event: u32, t: &Tuple, tally: &mut Box<dyn Tally>)
    ensures { state_of (kind tally.new) (counts tally.new)
        ≡ fed (state_of (kind tally.old) (counts tally.old)) (t.now ∷ []) }
{
    tally.feed(event, t);
}

// Adds the lines of each tally.
fn add_tallies(
    items: &[Item],
    tallies: &[Box<dyn Tally>],
    report: &mut Report,
) -> Result<(), OutOfMemory>
    ensures { OnOk result (report.new ≡ report.old ++ flat_map (tally_lines (map item_of items.now))
        (map (λ b. state_of (kind b) (counts b)) tallies.now)) }
{
    for tally in tallies {
        add_tally(items, tally, report)?;
    }
    Ok(())
}

// Adds the lines of a tally.
fn add_tally(items: &[Item], tally: &Box<dyn Tally>, report: &mut Report) -> Result<(), OutOfMemory>
    ensures { OnOk result (report.new ≡ report.old
        ++ tally_lines (map item_of items.now) (state_of (kind tally.now) (counts tally.now))) }
{
    for k in 0..MOST_CELLS {
        let Some(cell) = cell_at(tally, k) else {
            break;
        };
        report.tally(items, &cell)?;
    }
    Ok(())
}

// The cell of a tally at a place, or `None` past the last one.
fn cell_at(tally: &Box<dyn Tally>, k: u32) -> Option<Cell>
    ensures at { result ≡ slice_get (cells (kind tally.now) (counts tally.now)) k }
    ensures few { length (counts tally.now) ≤ most_labels (kind tally.now) }
{
    tally.cell(k)
}
