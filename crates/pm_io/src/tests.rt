use crate::{Cue, Failed, MemSink, MemSource, Sink, Source, StdSink, StdSource, write_whole};
use std::alloc::AllocError;
use std::io::{self, Read, Write};
use std::test::Fail;

/// Gives its last byte, or takes at most two, and fails at the second call.
#[derive(Drop)]
struct Flaky {
    bytes: Vec<u8>,
    calls: usize,
}

impl Flaky {
    fn fails_now(&mut self) -> bool {
        self.calls = self.calls.saturating_add(1);
        self.calls == 2
    }
}

impl Read for Flaky {
    fn read(&mut self, buf: &mut [u8]) -> io::Result<usize> {
        if self.fails_now() {
            return Err(io::Error::from(io::ErrorKind::BrokenPipe));
        }
        match (self.bytes.pop(), buf.first_mut()) {
            (Some(byte), Some(place)) => {
                *place = byte;
                Ok(1)
            }
            _ => Ok(0),
        }
    }
}

impl Write for Flaky {
    fn write(&mut self, buf: &[u8]) -> io::Result<usize> {
        if self.fails_now() {
            return Err(io::Error::from(io::ErrorKind::BrokenPipe));
        }
        let count = buf.len().min(2);
        self.bytes.extend_from_slice(&buf[..count])?;
        Ok(count)
    }

    fn flush(&mut self) -> io::Result<()> {
        Ok(())
    }
}

#[test]
fn a_source_goes_on_after_a_fault_of_its_reader(rt: HostRuntime) -> Result<(), Fail> {
    let bytes = Vec::from_slice(rt.alloc(), b"ba")?;
    let mut source = StdSource::new(Flaky { bytes, calls: 0 });
    let mut buf = [0; 4];
    for (want, first) in [
        (Ok(1), b'a'),
        (Err(Failed), b'a'),
        (Ok(1), b'b'),
        (Ok(0), b'b'),
    ] {
        assert_eq!(rt; source.take(&mut buf), want);
        assert_eq!(rt; buf[0], first);
    }
    Ok(())
}

#[test]
fn a_sink_goes_on_after_a_fault_of_its_writer(rt: HostRuntime) {
    let bytes = Vec::new(rt.alloc());
    let mut sink = StdSink::new(Flaky { bytes, calls: 0 });
    for (piece, want) in [
        (b"abc".as_slice(), Ok(2)),
        (b"c".as_slice(), Err(Failed)),
        (b"".as_slice(), Ok(0)),
        (b"c".as_slice(), Ok(1)),
    ] {
        assert_eq!(rt; sink.put(piece), want);
    }
}

#[test]
fn devices_in_memory_follow_their_scripts(rt: HostRuntime) -> Result<(), Fail> {
    let alloc = rt.alloc();
    let script = [Cue::Take(2), Cue::Take(0), Cue::Fail, Cue::All];
    let bytes = Vec::from_slice(alloc, b"abcdefgh")?;
    let mut source = MemSource::new(bytes, Vec::from_slice(alloc, &script)?);
    let mut sink = MemSink::new(alloc, Vec::from_slice(alloc, &script)?);
    let mut buf = [0; 3];
    for (taken, given, put) in [
        (Ok(2), b"ab".as_slice(), Ok(2)),
        (Ok(1), b"c".as_slice(), Ok(0)),
        (Err(Failed), b"".as_slice(), Err(Failed)),
        (Ok(3), b"def".as_slice(), Ok(3)),
        (Ok(2), b"gh".as_slice(), Ok(3)),
        (Ok(0), b"".as_slice(), Ok(3)),
    ] {
        assert_eq!(rt; source.take(&mut buf), taken);
        assert!(rt; buf.starts_with(given));
        assert_eq!(rt; sink.put(b"xyz"), put);
    }
    assert!(rt; sink.bytes() == b"xyxyzxyzxyz".as_slice());
    assert_eq!(rt; sink.wants(), 0);
    Ok(())
}

#[test]
fn what_is_written_whole(rt: HostRuntime) -> Result<(), Fail> {
    let alloc = rt.alloc();
    for (script, want, held) in [
        (
            [Cue::Take(1), Cue::Take(1), Cue::Take(1)],
            Ok(()),
            b"abc".as_slice(),
        ),
        (
            [Cue::Take(1), Cue::Take(1), Cue::Fail],
            Err(Failed),
            b"ab".as_slice(),
        ),
        (
            [Cue::Take(0), Cue::All, Cue::All],
            Err(Failed),
            b"".as_slice(),
        ),
    ] {
        let mut sink = MemSink::new(alloc, Vec::from_slice(alloc, &script)?);
        let written = write_whole(&mut sink, b"abc");
        if sink.wants() > 0 {
            return Err(AllocError.into());
        }
        assert_eq!(rt; written, want);
        assert!(rt; sink.bytes() == held);
    }
    Ok(())
}
