//! The program `mask`: checks the gadget file on standard input, and writes the report to standard output.
#![tactic(auto)]

use mask_bytes::{OutOfMemory, Sink, Source, StdSink, StdSource};
use mask_check::{Line, OpenGate, Status, Tally, check, exit_status, status_text};
use std::env::Env;
use std::io::Write;
use std::marker::Sync;
use std::process::ExitCode;
use std::thread::Threads;
use std::{env, io};
use tallies::{ByItem, BySize};

fn main(rt: HostRuntime) -> ExitCode {
    let mut source = StdSource::make(rt.stdin());
    let mut sink = StdSink::make(rt.stdout());
    let status = checked(&rt, &mut source, &mut sink).unwrap_or(Status::OutOfMemory);
    // Nobody is left to tell where standard error fails: the exit status says it all the same.
    let _ = explain(rt.stderr(), &status);
    ExitCode::from(exit_status(&status))
}

// How the check that the command line asks for ends, or that memory ran out before it began.
fn checked<R: AllocGlobal + Env + Threads + Sync, S: Source, K: Sink>(
    rt: &R,
    source: &mut S,
    sink: &mut K,
) -> Result<Status, OutOfMemory> {
    let alloc = rt.alloc();
    let words = words(rt)?;
    let mut tallies: Vec<Box<dyn Tally>> = Vec::new(alloc);
    tallies.push(Box::new(alloc, BySize::new())?)?;
    tallies.push(Box::new(alloc, ByItem::make(alloc)?)?)?;
    Ok(check(rt, alloc, &words, source, sink, &OpenGate, &mut tallies))
}

// The words of the command line. There is no list of them where memory runs out or a word isn't UTF-8.
fn words<R: AllocGlobal + Env>(rt: &R) -> Result<Vec<String>, OutOfMemory> {
    let words = env::args(rt).map_err(|_| OutOfMemory)?;
    words.collect(rt.alloc()).map_err(|_| OutOfMemory)
}

// Prints the text of a status that has one.
fn explain<W: Write + Drop>(mut out: W, status: &Status) -> io::Result<()> {
    let mut line = Line::new();
    status_text(status, &mut line);
    if !line.bytes().is_empty() {
        out.write_all(line.bytes())?;
        out.write_all(b"\n")?;
    }
    Ok(())
}
