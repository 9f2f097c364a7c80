//! The top call.

ghost use Rattle.std.specs.Prelude.{◌≡◌, ◌≢◌, ◌⊎◌, ◌≤◌, Ok, Err, MatchResult, map, string_bytes, IfOk};
ghost use Rattle.tuple_model.specs.Limits.{most_size};
ghost use Rattle.mask_bytes.specs.Counts.{Rose};
ghost use Rattle.mask_check.specs.Causes.{status_of_words};
ghost use Rattle.mask_check.specs.Tallying.{state_of};
ghost use Rattle.mask_check.specs.Ends.{run_of, words_ask};
ghost use Rattle.mask_check.specs.Ends.{Completes, Ends, IsDoneIfMemoryLasts, IsValid, IsValidDemo};

use crate::answer::decide;
use crate::demonstration::{check_of, file_of};
use crate::refusals::refused_words;
use check_workers::Gate;
use gadget_tree::read_gadget;
use mask_bytes::{Sink, Source, write_whole};
use mask_words::settings;
use report::Status;
use std::alloc::Global;
use std::marker::Sync;
use std::thread::Threads;
use tallies::Tally;
use wire_table::WireTable;

/// Checks the gadget file that `source` gives, or that of a demonstration, as the words of the command line ask, and
/// writes the report to `sink`. The workers run on `rt`; each calls `gate` before each block of tuples. Where the words
/// ask for tallies, each of `tallies` is fed the failing tuples of the report, in order.
pub fn check<R: Threads + Sync, S: Source, K: Sink, G: Gate>(
    rt: &R,
    alloc: Global,
    words: &[String],
    source: &mut S,
    sink: &mut K,
    gate: &G,
    tallies: &mut Vec<Box<dyn Tally>>,
) -> Status
    // What each status says of the words, of what was read, of what was written, and of the tallies.
    ensures ends { Ends (map string_bytes words.now)
        (run_of S.left S.faults K.written K.faults (λ b. state_of (kind b) (counts b))
        source.old source.new sink.old sink.new tallies.old.items tallies.new.items) result }

    // Bad words are refused by the first thing that is wrong with them, unless memory fails.
    ensures words { (error : _) → words_ask (map string_bytes words.now) ≡ Err error →
        (result ≡ status_of_words error) ⊎ (result ≡ Status.OutOfMemory) }

    // Every other answer met no fault, a report above all.
    ensures read_faultless { result ≢ Status.ReadFault → S.faults source.new ≡ S.faults source.old }
    ensures write_faultless { result ≢ Status.WriteFault → K.faults sink.new ≡ K.faults sink.old }

    // A valid check of a file completes, and so does a valid demonstration, unless memory fails.
    ensures complete { IsValid (map string_bytes words.now)
        (run_of S.left S.faults K.written K.faults (λ b. state_of (kind b) (counts b))
        source.old source.new sink.old sink.new tallies.old.items tallies.new.items) → IsDoneIfMemoryLasts result }
    ensures complete_demo { IsValidDemo (map string_bytes words.now)
        (run_of S.left S.faults K.written K.faults (λ b. state_of (kind b) (counts b))
        source.old source.new sink.old sink.new tallies.old.items tallies.new.items) → IsDoneIfMemoryLasts result }
{
    match finish(rt, alloc, words, source, sink, gate, tallies) {
        Ok(status) => status,
        Err(refusal) => refusal,
    }
}

// How the check ends once the report is written, or the refusal.
fn finish<R: Threads + Sync, S: Source, K: Sink, G: Gate>(
    rt: &R,
    alloc: Global,
    words: &[String],
    source: &mut S,
    sink: &mut K,
    gate: &G,
    tallies: &mut Vec<Box<dyn Tally>>,
) -> Result<Status, Status>
    ensures ends { let run = run_of S.left S.faults K.written K.faults (λ b. state_of (kind b) (counts b))
        source.old source.new sink.old sink.new tallies.old.items tallies.new.items in
        MatchResult result (Completes (map string_bytes words.now) run) (Ends (map string_bytes words.now) run) }
    ensures read_faultless { result ≢ Err Status.ReadFault → S.faults source.new ≡ S.faults source.old }
    ensures write_faultless { result ≢ Err Status.WriteFault → K.faults sink.new ≡ K.faults sink.old }
{
    let settings = settings(alloc, words).map_err(refused_words)?;
    let bytes = file_of(alloc, &settings, source)?;
    let gadget = read_gadget(alloc, &bytes)?;
    let table = WireTable::make(alloc, &gadget)?;
    let check = check_of(&settings);
    let answer = decide(rt, alloc, &gadget, &table, &check, gate, tallies)?;
    write_whole(sink, answer.report.bytes())?;
    Ok(answer.status)
}

/// A source that counts no fault, as one that can't fail, meets by itself what a complete check asks of reading.
pub fn no_fault_law()
    ensures { Rose 0 0 → ⊥ }
{}
