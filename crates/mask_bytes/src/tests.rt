//! Each answer of the calls once, and std's readers and writers.
ghost use Rattle.std.specs.Prelude.{◌≡◌, ◌≤◌};
ghost use Rattle.mask_bytes.specs.Flow.{most_read};

use crate::{
    Failed, MemSink, MemSource, OutOfMemory, ReadError, Sink, Source, StdSink, StdSource,
    SureSource, read_whole, write_whole,
};
use std::alloc::Global;
use std::io;
use std::io::{Read, Write};
use std::test::Fail;

/// A reader that gives two bytes and then fails, and a writer that takes two bytes and then none.
#[derive(Drop)]
struct Broken {
    used: bool,
}

impl Read for Broken {
    fn read(&mut self, buf: &mut [u8]) -> io::Result<usize> {
        if self.used || buf.len() < 2 {
            return Err(io::Error::other("broken"));
        }
        self.used = true;
        buf[0] = b'o';
        buf[1] = b'k';
        Ok(2)
    }
}

impl Write for Broken {
    fn write(&mut self, buf: &[u8]) -> io::Result<usize> {
        if self.used {
            return Ok(0);
        }
        self.used = true;
        Ok(buf.len().min(2))
    }

    fn flush(&mut self) -> io::Result<()> {
        Ok(())
    }
}

/// A reader that gives one byte at each call, and a writer that takes one, but for the first call, which
/// fails or moves none.
#[derive(Drop)]
struct Late {
    fails: bool,
    calls: u32,
}

impl Late {
    fn make(fails: bool) -> Late {
        Late { fails, calls: 0 }
    }

    fn moved(&mut self) -> io::Result<usize> {
        self.calls = self.calls.saturating_add(1);
        if self.calls > 1 {
            return Ok(1);
        }
        if self.fails {
            return Err(io::Error::other("the first call fails"));
        }
        Ok(0)
    }
}

impl Read for Late {
    fn read(&mut self, buf: &mut [u8]) -> io::Result<usize> {
        let count = self.moved()?;
        Ok(count.min(buf.len()))
    }
}

impl Write for Late {
    fn write(&mut self, buf: &[u8]) -> io::Result<usize> {
        let count = self.moved()?;
        Ok(count.min(buf.len()))
    }

    fn flush(&mut self) -> io::Result<()> {
        Ok(())
    }
}

/// A source that never fails has no read fault.
fn read_surely(alloc: Global, bytes: Vec<u8>, max: usize) -> Result<Vec<u8>, ReadError>
    requires { max ≤ most_read }
    ensures { result ≡ Err ReadError.ReadFault → ⊥ }
{
    read_whole(alloc, &mut SureSource::make(bytes), max)
}

#[test]
fn reads_all_up_to_the_limit(rt: HostRuntime) -> Result<(), Fail> {
    let alloc = rt.alloc();
    let text = read_surely(alloc, b"share".to_vec(alloc)?, 5)?;
    assert_eq!(rt; text.as_slice(), b"share".as_slice());
    let long = read_surely(alloc, b"share".to_vec(alloc)?, 4);
    assert_eq!(rt; long.err(), Some(ReadError::TooLong));
    Ok(())
}

#[test]
fn read_fault_keeps_what_is_left(rt: HostRuntime) -> Result<(), Fail> {
    let alloc = rt.alloc();
    let fails = [3u32].to_vec(alloc)?;
    let mut source = MemSource::make(b"share".to_vec(alloc)?, 1, fails);
    let fault = read_whole(alloc, &mut source, 9);
    assert_eq!(rt; fault.err(), Some(ReadError::ReadFault));
    let rest = read_whole(alloc, &mut source, 9)?;
    assert_eq!(rt; rest.as_slice(), b"are".as_slice());
    Ok(())
}

#[test]
fn full_sink_holds_what_found_room(rt: HostRuntime) -> Result<(), Fail> {
    let alloc = rt.alloc();
    let mut sink = MemSink::make(alloc, 7, 2, [2u32].to_vec(alloc)?)?;
    assert_eq!(rt; write_whole(&mut sink, b"share"), Err(Failed));
    assert_eq!(rt; sink.bytes(), b"sh".as_slice());
    assert_eq!(rt; write_whole(&mut sink, b"are"), Ok(()));
    assert_eq!(rt; write_whole(&mut sink, b"holder"), Err(Failed));
    assert_eq!(rt; sink.bytes(), b"shareho".as_slice());
    assert_eq!(rt; sink.faults(), 2);
    Ok(())
}

#[test]
fn room_that_cannot_be_had_is_out_of_memory(rt: HostRuntime) {
    let alloc = rt.alloc();
    let sink = MemSink::make(alloc, usize::MAX, 1, Vec::new(alloc));
    assert_eq!(rt; sink.err(), Some(OutOfMemory));
}

#[test]
fn std_readers_are_sources(rt: HostRuntime) -> Result<(), Fail> {
    let alloc = rt.alloc();
    let text = read_whole(alloc, &mut StdSource::make(b"share".as_slice()), 5)?;
    assert_eq!(rt; text.as_slice(), b"share".as_slice());
    let broken = read_whole(alloc, &mut StdSource::make(Broken { used: false }), 5);
    assert_eq!(rt; broken.err(), Some(ReadError::ReadFault));
    Ok(())
}

#[test]
fn std_writers_are_sinks(rt: HostRuntime) -> Result<(), Fail> {
    let mut text: Vec<u8> = Vec::new(rt.alloc());
    assert_eq!(rt;
        write_whole(&mut StdSink::make(&mut text), b"share"),
        Ok(())
    );
    assert_eq!(rt; text.as_slice(), b"share".as_slice());
    let mut broken = StdSink::make(Broken { used: false });
    assert_eq!(rt; write_whole(&mut broken, b"share"), Err(Failed));
    Ok(())
}

#[test]
fn a_source_calls_its_reader_once(rt: HostRuntime) {
    let mut buf = [0u8; 4];
    let mut late = Late::make(true);
    let mut source = StdSource::make(&mut late);
    assert_eq!(rt; source.read(&mut buf), Err(Failed));
    assert_eq!(rt; source.read(&mut buf), Ok(1));
    assert_eq!(rt; late.calls, 2);
    let mut late = Late::make(false);
    let mut source = StdSource::make(&mut late);
    assert_eq!(rt; source.read(&mut buf), Ok(0));
    assert_eq!(rt; source.read(&mut buf), Ok(1));
    assert_eq!(rt; late.calls, 2);
}

#[test]
fn a_sink_calls_its_writer_once(rt: HostRuntime) {
    for fails in [true, false] {
        let mut late = Late::make(fails);
        let mut sink = StdSink::make(&mut late);
        assert_eq!(rt; sink.write(b"share"), Err(Failed));
        assert_eq!(rt; sink.write(b"share"), Ok(1));
        assert_eq!(rt; late.calls, 2);
    }
}
