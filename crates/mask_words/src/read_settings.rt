//! From the words of a command line to settings.

ghost use Rattle.std.specs.Prelude.{◌≡◌, ◌≤◌, IfOk, map, drop, option_map, string_bytes};
ghost use Rattle.mask_words.specs.Answers.{AgreesWith, IsWellFormed};
ghost use Rattle.mask_words.specs.Settings.{least_order, greatest_order, size_of, settings_from};
ghost use Rattle.mask_words.specs.Settings.{settings_of, wires_by};
ghost use Rattle.mask_words.specs.Shown.{shown};

use crate::answer::{Settings, WordsError};
use crate::given::{Given, read};
use crate::number::number_between;
use crate::options::{BLOCK, BUDGET, MOST_LEAKING_ORDER, MOST_ORDER, SIZE, WORDS, WORKERS, value};
use gadget_maker::{LEAST_DEMO_SHARES, MOST_DEMO_SHARES};
use mask_terms::{Opt, Task, UsageKind, Wires};
use std::alloc::Global;

// The least order that a task takes.
fn least_order(task: Task) -> u64
    ensures { result ≡ least_order task }
{
    if task.is_demo() {
        u64::from(LEAST_DEMO_SHARES)
    } else {
        0
    }
}

// The greatest order that a task takes.
fn greatest_order(task: Task) -> u64
    ensures { result ≡ greatest_order task }
{
    if task.leaks() {
        MOST_LEAKING_ORDER
    } else if task.is_demo() {
        u64::from(MOST_DEMO_SHARES)
    } else {
        MOST_ORDER
    }
}

// The greatest size of a tuple, where `given` stands for `--size`.
fn size_of(task: Task, t: u64, given: u64) -> u64
    requires { least_order task ≤ t }
    ensures { result ≡ size_of task t given }
{
    if task.leaks() {
        given
    } else if task.is_demo() {
        t - 1
    } else {
        t
    }
}

// The kind of wires that `--wires` asks for.
fn wires(text: Option<&str>) -> Result<Wires, WordsError>
    ensures { result ≡ wires_by (option_map (λ s. s.now) text.entry) }
{
    let Some(text) = text else {
        return Ok(Wires::Copies);
    };
    Wires::named(text).ok_or(WordsError::Usage(UsageKind::Value(Opt::Wires)))
}

// The checks of what is given, in their order.
fn settings_from(given: &Given) -> Result<Settings, WordsError>
    ensures settings { result ≡ settings_from (shown given.now) }
    ensures well_formed { IfOk result IsWellFormed }
{
    let task = Task::named(given.task).ok_or(WordsError::Usage(UsageKind::Task))?;
    let t = number_between(given.argument, least_order(task), greatest_order(task)).ok_or(
        WordsError::Usage(UsageKind::Argument),
    )?;
    let size = value(SIZE, given.size)?;
    let workers = value(WORKERS, given.workers)?;
    let block = value(BLOCK, given.block)?;
    let budget = value(BUDGET, given.budget)?;
    let words = value(WORDS, given.words)?;
    let wires = wires(given.wires)?;
    if !task.leaks() && (given.size.is_some() || given.wires.is_some()) {
        return Err(WordsError::SizeNotUsed);
    }
    Ok(Settings {
        task,
        t: t as u8,
        size: size_of(task, t, size) as u8,
        workers: workers as u16,
        block,
        budget,
        words: words as u32,
        wires,
        tallies: given.tallies,
    })
}

/// The settings that the words of a command line give, of which the first is the program's name. Where something is
/// wrong, the error is that of the first check that fails: of the words as a whole, of the task, of its argument, of
/// the options' values in the order of their table, and at last whether the task uses `--size` and `--wires`.
pub fn settings(alloc: Global, words: &[String]) -> Result<Settings, WordsError>
    ensures settings { AgreesWith (settings_of (drop 1 (map string_bytes words.now))) result }
    ensures well_formed { IfOk result IsWellFormed }
{
    let given = read(alloc, words)?.ok_or(WordsError::Usage(UsageKind::Words))?;
    settings_from(&given)
}
