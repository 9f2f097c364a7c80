//! Whole reads and whole writes.
ghost use Rattle.std.specs.Prelude.{◌≡◌, ◌≢◌, ◌+◌, ◌≤◌, [], length, vec_len, IfOk, IfErr, IfSome, OnOk, OnErr, IsOk};
ghost use Rattle.std.specs.Io.KnownBytes.{append_known, IsAtEnd};
ghost use Rattle.mask_bytes.specs.Counts.{Rose};
ghost use Rattle.mask_bytes.specs.Flow.{most_read, LeavesSuffix, LosesCount, LosesAtMost, IsLonger, AppendsProperPrefix};

use crate::error::{Failed, ReadError};
use crate::sink::Sink;
use crate::source::Source;
use std::alloc::Global;

/// How many bytes a single read asks for at most.
const BUFFER_LENGTH: usize = 4096;

/// Reads to the end of the source, up to `max` bytes, of which 1,073,741,824 may be allowed. To tell that there are
/// more it reads one byte past `max`.
pub fn read_whole<S: Source>(
    alloc: Global,
    source: &mut S,
    max: usize,
) -> Result<Vec<u8>, ReadError>
    requires { max ≤ most_read }

    // All that was left, where the source tells it.
    ensures whole { IfOk result (λ bytes. IfSome (S.left source.old) (λ left. bytes.items ≡ left)) }
    ensures end { OnOk result (IsAtEnd (S.left source.new)) }
    ensures short { IfOk result (λ bytes. vec_len bytes ≤ max) }

    // Without a fault of reading the count stays.
    ensures counted { OnOk result (S.faults source.new ≡ S.faults source.old) }
    ensures unfaulted { IfErr result (λ error. error ≢ ReadError.ReadFault
        → S.faults source.new ≡ S.faults source.old) }

    // When each error comes. `ReadFault` has read nothing past `max`, `TooLong` one byte past it, and
    // `OutOfMemory` one byte at most.
    ensures fault { result ≡ Err ReadError.ReadFault
        → Rose (S.faults source.old) (S.faults source.new) }
    ensures within { result ≡ Err ReadError.ReadFault
        → LosesAtMost (S.left source.old) (S.left source.new) max }
    ensures long { result ≡ Err ReadError.TooLong → IsLonger (S.left source.old) max }
    ensures one_more { result ≡ Err ReadError.TooLong
        → LosesCount (S.left source.old) (S.left source.new) (max + 1) }
    ensures one_more_at_most { result ≡ Err ReadError.OutOfMemory
        → LosesAtMost (S.left source.old) (S.left source.new) (max + 1) }

    // What becomes of the source, whatever the result.
    ensures rest { LeavesSuffix (S.left source.old) (S.left source.new) }
    ensures never_falls { S.faults source.old ≤ S.faults source.new }
{
    let mut bytes = Vec::new(alloc);
    let mut buf = [0u8; BUFFER_LENGTH];
    while bytes.len() <= max {
        let room = (max + 1 - bytes.len()).min(BUFFER_LENGTH);
        let count = source.read(&mut buf[..room])?;
        if count == 0 {
            return Ok(bytes);
        }
        bytes.extend_from_slice(&buf[..count])?;
    }
    Err(ReadError::TooLong)
}

/// Writes all of `bytes`, in as many writes as the sink needs, and none where there are no bytes.
pub fn write_whole<K: Sink>(sink: &mut K, bytes: &[u8]) -> Result<(), Failed>
    ensures whole { OnOk result
        (K.written sink.new ≡ append_known (K.written sink.old) bytes.now) }
    ensures prefix { OnErr result
        (AppendsProperPrefix (K.written sink.old) (K.written sink.new) bytes.now) }
    ensures fault { OnErr result (Rose (K.faults sink.old) (K.faults sink.new)) }
    ensures counted { OnOk result (K.faults sink.new ≡ K.faults sink.old) }
    ensures never_falls { K.faults sink.old ≤ K.faults sink.new }

    // Without bytes the sink isn't called.
    ensures empty { bytes.now ≡ [] → IsOk result }
    ensures untouched { bytes.now ≡ [] → sink.new ≡ sink.old }
{
    let mut done = 0;
    while done < bytes.len() {
        done += sink.write(&bytes[done..])?;
    }
    Ok(())
}
