// Streams over readers and writers that fail, stop, or take a part.
use super::{ReadSource, Sink, Source, WriteSink};
use crate::Failed;
use std::io::{self, Read, Write};

// A reader of three bytes that gives one at a time. Its second read fails.
#[derive(Drop)]
struct SlowReader {
    reads: u8,
}

impl Read for SlowReader {
    fn read(&mut self, buf: &mut [u8]) -> io::Result<usize> {
        self.reads = self.reads.saturating_add(1);
        if self.reads == 2 {
            return Err(io::ErrorKind::Other.into());
        }
        if self.reads > 4 || buf.is_empty() {
            return Ok(0);
        }
        buf[0] = self.reads;
        Ok(1)
    }
}

#[test]
fn a_failed_read_is_no_end(rt: HostRuntime) {
    let mut source = ReadSource::new(SlowReader { reads: 0 });
    let mut into = [0u8; 4];
    for (taken, first) in [
        (Ok(1), 1),
        (Err(Failed), 1),
        (Ok(1), 3),
        (Ok(1), 4),
        (Ok(0), 4),
        (Ok(0), 4),
    ] {
        assert_eq!(rt; source.take(&mut into), taken);
        assert_eq!(rt; into, [first, 0, 0, 0]);
    }
    assert_eq!(rt; source.faults, 1);
    let mut source = ReadSource::new(b"ab".as_slice());
    assert_eq!(rt; source.take(&mut into), Ok(2));
    assert_eq!(rt; into, [b'a', b'b', 0, 0]);
}

// A writer that takes one byte at a time, the first byte of what is written. Its second write fails, and it takes
// nothing from the fourth on.
#[derive(Drop)]
struct SlowWriter {
    writes: u8,
    last: u8,
}

impl Write for SlowWriter {
    fn write(&mut self, buf: &[u8]) -> io::Result<usize> {
        self.writes = self.writes.saturating_add(1);
        if self.writes == 2 {
            return Err(io::ErrorKind::Other.into());
        }
        if self.writes > 3 || buf.is_empty() {
            return Ok(0);
        }
        self.last = buf[0];
        Ok(1)
    }

    fn flush(&mut self) -> io::Result<()> {
        Ok(())
    }
}

#[test]
fn a_failed_or_short_write_is_told(rt: HostRuntime) {
    let mut sink = WriteSink::new(SlowWriter { writes: 0, last: 0 });
    for (bytes, put, last, faults) in [
        (b"abc".as_slice(), Ok(1), b'a', 0),
        (b"bc", Err(Failed), b'a', 1),
        (b"bc", Ok(1), b'b', 1),
        (b"c", Ok(0), b'b', 2),
    ] {
        assert_eq!(rt; sink.put(bytes), put);
        assert_eq!(rt; (sink.inner.last, sink.faults), (last, faults));
    }
    let mut sink = WriteSink::new(Vec::new(rt.alloc()));
    assert_eq!(rt; sink.put(b"abc"), Ok(3));
    assert_eq!(rt; sink.inner.as_slice(), b"abc".as_slice());
}
