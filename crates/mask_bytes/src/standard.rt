//! Sources and sinks over std's readers and writers.
ghost use Rattle.std.specs.Prelude.{◌≡◌, ◌<◌, ◌≤◌, length, IfOk, OnOk, OnErr};
ghost use Rattle.std.specs.Io.KnownBytes.{ReadConsumes, WriteAppends};
ghost use Rattle.mask_bytes.specs.Counts.{raised_count};

use crate::error::Failed;
use crate::sink::Sink;
use crate::source::Source;
use std::io::{Read, Write};

/// A source over a reader. As a source it tells no bytes. Contracts see the reader and how many
/// reads failed, so that bytes that std's contracts tell of the reader are passed on exactly.
#[derive(Debug, Drop)]
pub struct StdSource<T> {
    reader: T,
    faults: u64,
}

impl<T: Read> StdSource<T> {
    /// A source that reads from `reader`. Each of the reader's errors is a failure.
    pub fn make(reader: T) -> StdSource<T>
        ensures { result ≡ record { reader = reader; faults = 0 } }
    {
        StdSource { reader, faults: 0 }
    }
}

impl<T: Read> Source for StdSource<T> {
    ghost use Rattle.std.specs.Prelude.{None};

    ghost left = { λ _. None };

    ghost faults = { λ s. s.faults };

    fn read(&mut self, buf: &mut [u8]) -> Result<usize, Failed>
        ensures bound { IfOk result (λ count. count ≤ length buf.new) }
        ensures bytes { ReadConsumes (T.remaining self.old.reader) (T.remaining self.new.reader)
            result buf.new }
        ensures ok { OnOk result (self.new.faults ≡ self.old.faults) }
        ensures err { OnErr result (self.new.faults ≡ raised_count self.old.faults) }
        ensures never_falls { self.old.faults ≤ self.new.faults }
    {
        match self.reader.read(buf) {
            Ok(count) => Ok(count),
            Err(_) => {
                self.faults = self.faults.saturating_add(1);
                Err(Failed)
            }
        }
    }
}

/// A sink over a writer. As a sink it tells no bytes. Contracts see the writer and how many writes
/// failed, so that bytes that std's contracts tell of the writer are passed on exactly. It never
/// flushes: a writer that holds bytes back, as a `BufWriter`, is flushed by whoever owns it.
#[derive(Debug, Drop)]
pub struct StdSink<T> {
    writer: T,
    faults: u64,
}

impl<T: Write> StdSink<T> {
    /// A sink that writes to `writer`. Each of the writer's errors is a failure, and so is a write
    /// of no bytes.
    pub fn make(writer: T) -> StdSink<T>
        ensures { result ≡ record { writer = writer; faults = 0 } }
    {
        StdSink { writer, faults: 0 }
    }
}

impl<T: Write> Sink for StdSink<T> {
    ghost use Rattle.std.specs.Prelude.{None};

    ghost written = { λ _. None };

    ghost faults = { λ s. s.faults };

    fn write(&mut self, piece: &[u8]) -> Result<usize, Failed>
        ensures some { IfOk result (λ count. 0 < count) }
        ensures bound { IfOk result (λ count. count ≤ length piece.now) }
        ensures bytes { WriteAppends (T.contents self.old.writer) (T.contents self.new.writer)
            result piece.now }
        ensures ok { OnOk result (self.new.faults ≡ self.old.faults) }
        ensures err { OnErr result (self.new.faults ≡ raised_count self.old.faults) }
        ensures never_falls { self.old.faults ≤ self.new.faults }
    {
        match self.writer.write(piece) {
            Ok(count) if count > 0 => Ok(count),
            _ => {
                self.faults = self.faults.saturating_add(1);
                Err(Failed)
            }
        }
    }
}
