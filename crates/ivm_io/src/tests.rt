//! Each public call once with ample memory, and a reader and a writer that fail in mid-stream.

use super::*;
use std::io;
use std::test::Fail;

// Gives one byte, and fails from then on.
#[derive(Drop)]
struct Broken {
    reads: u8,
}

impl io::Read for Broken {
    fn read(&mut self, buf: &mut [u8]) -> io::Result<usize> {
        if self.reads == 1 || buf.is_empty() {
            return Err(io::Error::from(io::ErrorKind::Other));
        }
        self.reads = 1;
        buf[0] = 7;
        Ok(1)
    }
}

// Takes nothing.
#[derive(Drop)]
struct Full;

impl io::Write for Full {
    fn write(&mut self, _buf: &[u8]) -> io::Result<usize> {
        Ok(0)
    }

    fn flush(&mut self) -> io::Result<()> {
        Ok(())
    }
}

#[test]
fn a_reader_is_read_to_its_end(rt: HostRuntime) -> Result<(), Fail> {
    let mut source = ReaderSource::new(b"abc".as_slice());
    let bytes = read_all(rt.alloc(), &mut source, 3)?;
    assert_eq!(rt; bytes.as_slice(), b"abc".as_slice());
    Ok(())
}

#[test]
fn a_reader_that_fails_in_mid_stream_is_told(rt: HostRuntime) -> Result<(), Fail> {
    let mut source = ReaderSource::new(Broken { reads: 0 });
    let outcome = read_all(rt.alloc(), &mut source, 9);
    assert_eq!(rt; outcome.err(), Some(ReadStop::Fault));
    Ok(())
}

#[test]
fn a_vector_is_written_to(rt: HostRuntime) -> Result<(), Fail> {
    let mut bytes = Vec::new(rt.alloc());
    let mut sink = WriterSink::new(&mut bytes);
    let outcome = write_all(&mut sink, b"abc");
    assert_eq!(rt; outcome, Ok(()));
    assert_eq!(rt; bytes.as_slice(), b"abc".as_slice());
    Ok(())
}

#[test]
fn a_writer_that_takes_nothing_has_failed(rt: HostRuntime) -> Result<(), Fail> {
    let mut sink = WriterSink::new(Full);
    assert_eq!(rt; write_all(&mut sink, b"abc"), Err(Failed));
    assert_eq!(rt; write_all(&mut sink, b""), Ok(()));
    Ok(())
}

#[test]
fn the_listed_write_fails_and_the_next_succeeds(rt: HostRuntime) -> Result<(), Fail> {
    let alloc = rt.alloc();
    let mut sink = MemorySink::new(alloc, [2u64].to_vec(alloc)?);
    assert_eq!(rt; write_all(&mut sink, b"ab"), Ok(()));
    assert_eq!(rt; write_all(&mut sink, b"cd"), Err(Failed));
    assert_eq!(rt; write_all(&mut sink, b"ef"), Ok(()));
    assert_eq!(rt; sink.bytes(), b"abef".as_slice());
    Ok(())
}
