//! The gadget file and the report that most examples share, and how they are checked.
ghost use Rattle.std.specs.Prelude.{◌≤◌};

use mask_bytes::{MemSink, MemSource, Source, SureSource};
use mask_check::{OpenGate, Status, Tally, check};
use std::alloc::Global;
use std::marker::Sync;
use std::test::Fail;
use std::thread::Threads;

/// A gadget file of 44 bytes, whose first output share is the sum of both input shares.
pub const SUM: &str = "#SHARES 2\n#IN a\n#OUT d\nd0 = a0 + a1\nd1 = a1\n";

/// The report of `SUM` at order 1. The sum alone depends on both shares, and one probe may depend on one.
pub const SUM_REPORT: &str =
    "check ni 1\ngadget shares 2 inputs 1 outputs 1 randoms 0 variables 4\nspace items 4 size 1 tuples 5\nfail 1 d0\nverdict no\n";

/// A refresh of two shares by one random bit, a gadget file of 61 bytes.
pub const REFRESH: &str = "#SHARES 2\n#IN a\n#RANDOMS r0\n#OUT d\nd0 = a0 + r0\nd1 = a1 + r0\n";

/// The multiplication of two shares of Ishai, Sahai and Wagner.
pub const MULTIPLICATION: &str =
    "#SHARES 2\n#IN a b\n#RANDOMS r01\n#OUT c\np00 = a0 * b0\np01 = a0 * b1\np10 = a1 * b0\np11 = a1 * b1\nu01 = r01 + p01\nr10 = u01 + p10\nc0 = p00 + r01\nc1 = p11 + r10\n";

/// A check of `REFRESH` for strong non-interference at order 2: the output shares sum to both shares of the input, and no
/// probe inside pays for them.
pub const PAIR_REPORT: &str =
    "check sni 2\ngadget shares 2 inputs 1 outputs 1 randoms 1 variables 5\nspace items 5 size 2 tuples 16\nfail 2 d0 d1\nverdict no\n";

/// How a check ended, and what it wrote.
#[derive(Drop)]
pub struct Outcome {
    pub status: Status,
    pub text: String,
}

/// The words of a command line.
pub fn owned(alloc: Global, words: &[&str]) -> Result<Vec<String>, Fail> {
    let mut owned = Vec::new(alloc);
    for word in words {
        owned.push(String::from_str(alloc, word)?)?;
    }
    Ok(owned)
}

/// A source that gives `most` bytes of a file in a call, and fails at the calls of these numbers.
pub fn source_of(alloc: Global, file: &str, most: usize, fails: &[u32]) -> Result<MemSource, Fail>
    requires { 1 ≤ most }
{
    let bytes = file.as_bytes().to_vec(alloc)?;
    Ok(MemSource::make(bytes, most, fails.to_vec(alloc)?))
}

/// Checks a file as the words after the program's name ask.
pub fn check_as<R: AllocGlobal + Threads + Sync>(
    rt: &R,
    asked: &[&str],
    file: &str,
) -> Result<Outcome, Fail> {
    check_tallied(rt, asked, file, &mut Vec::new(rt.alloc()))
}

/// Checks a file as the words after the program's name ask, with these tallies.
pub fn check_tallied<R: AllocGlobal + Threads + Sync>(
    rt: &R,
    asked: &[&str],
    file: &str,
    tallies: &mut Vec<Box<dyn Tally>>,
) -> Result<Outcome, Fail> {
    let alloc = rt.alloc();
    let mut source = SureSource::make(file.as_bytes().to_vec(alloc)?);
    let sink = MemSink::make(alloc, 1000, 1000, Vec::new(alloc))?;
    check_whole(rt, asked, &mut source, sink, tallies)
}

/// Checks what `source` gives as [`PAIR_REPORT`] says, into a sink.
pub fn check_pair<R: AllocGlobal + Threads + Sync, S: Source>(
    rt: &R,
    source: &mut S,
    sink: MemSink,
) -> Result<Outcome, Fail> {
    check_whole(rt, &["sni", "2"], source, sink, &mut Vec::new(rt.alloc()))
}

/// Checks what `source` gives as the words after the program's name ask, into a sink, with these tallies.
pub fn check_whole<R: AllocGlobal + Threads + Sync, S: Source>(
    rt: &R,
    asked: &[&str],
    source: &mut S,
    mut sink: MemSink,
    tallies: &mut Vec<Box<dyn Tally>>,
) -> Result<Outcome, Fail> {
    let alloc = rt.alloc();
    let mut words = owned(alloc, &["mask"])?;
    for word in asked {
        words.push(String::from_str(alloc, word)?)?;
    }
    let status = check(rt, alloc, &words, source, &mut sink, &OpenGate, tallies);
    let text = String::from_utf8(sink.bytes().to_vec(alloc)?)?;
    Ok(Outcome { status, text })
}
