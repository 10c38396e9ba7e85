//! A source over a reader of std, and a sink over a writer of std.
ghost use Rattle.std.specs.Prelude.{◌≡◌, take, MatchResult, None};
ghost use Rattle.std.specs.Io.{ReadsAtMost, WritesAtMost};
ghost use Rattle.std.specs.Io.KnownBytes.{Appends, Keeps, ReadConsumes};
ghost use Rattle.ivm_io.specs.Causes.{CountsFailure, HasCause};
ghost use Rattle.ivm_io.specs.Transfers.{AppendsPrefix, TakesSome};

use crate::{Failed, Sink, Source};
use std::io::{Read, Write};

/// A reader with a count of its failures, which stops at 2^64 - 1. As a source it doesn't tell what
/// is left; its own clause does, where its reader tells it.
#[derive(Drop)]
pub struct ReaderSource<R: Read + Drop> {
    reader: R,
    faults: u64,
}

impl<R: Read + Drop> ReaderSource<R> {
    ghost use Rattle.ivm_io.specs.Adapters.{reader_faults, source_reader};

    /// A source over this reader, which hasn't failed yet.
    pub fn new(reader: R) -> ReaderSource<R>
        ensures reader { source_reader result ≡ reader }
        ensures faults { reader_faults result ≡ 0 }
    {
        ReaderSource { reader, faults: 0 }
    }
}

impl<R: Read + Drop> Source for ReaderSource<R> {
    ghost use Rattle.ivm_io.specs.Adapters.{reader_faults, source_reader};

    ghost left = { λ _. None };

    ghost faults = { λ s. s.faults };

    fn read(&mut self, buf: &mut [u8]) -> Result<usize, Failed>
        ensures bound { ReadsAtMost result buf.new }
        ensures bytes { ReadConsumes None None result buf.new }
        ensures reader { ReadConsumes (R.remaining (source_reader self.old)) (R.remaining (source_reader self.new)) result buf.new }

        ensures cause { HasCause (reader_faults self.old) (reader_faults self.new) result }
        ensures count { CountsFailure (reader_faults self.old) (reader_faults self.new) result }
    {
        match self.reader.read(buf) {
            Ok(count) => Ok(count),
            Err(_) => {
                self.faults = self.faults.saturating_add(1);
                Err(Failed)
            }
        }
    }
}

/// A writer with a count of its failures, which stops at 2^64 - 1. It tells what its writer tells.
/// A writer that takes nothing of a piece that isn't empty has failed.
#[derive(Drop)]
pub struct WriterSink<W: Write + Drop> {
    writer: W,
    faults: u64,
}

impl<W: Write + Drop> WriterSink<W> {
    ghost use Rattle.ivm_io.specs.Adapters.{sink_writer, writer_faults};

    /// A sink over this writer, which hasn't failed yet.
    pub fn new(writer: W) -> WriterSink<W>
        ensures writer { sink_writer result ≡ writer }
        ensures faults { writer_faults result ≡ 0 }
    {
        WriterSink { writer, faults: 0 }
    }
}

impl<W: Write + Drop> Sink for WriterSink<W> {
    ghost use Rattle.ivm_io.specs.Adapters.{sink_writer, writer_faults};

    ghost written = { λ s. W.contents s.writer };

    ghost faults = { λ s. s.faults };

    fn write(&mut self, bytes: &[u8]) -> Result<usize, Failed>
        ensures bound { WritesAtMost result bytes.now }
        ensures some { TakesSome result bytes.now }
        ensures appended { MatchResult result
            (λ n. Appends (W.contents (sink_writer self.old)) (W.contents (sink_writer self.new)) (take n bytes.now))
            (λ _. AppendsPrefix (W.contents (sink_writer self.old)) (W.contents (sink_writer self.new)) bytes.now) }
        ensures writer { MatchResult result
            (λ n. Appends (W.contents (sink_writer self.old)) (W.contents (sink_writer self.new)) (take n bytes.now))
            (λ _. Keeps (W.contents (sink_writer self.old)) (W.contents (sink_writer self.new))) }

        ensures cause { HasCause (writer_faults self.old) (writer_faults self.new) result }
        ensures count { CountsFailure (writer_faults self.old) (writer_faults self.new) result }
    {
        match self.writer.write(bytes) {
            Ok(count) if count > 0 || bytes.is_empty() => Ok(count),
            _ => {
                self.faults = self.faults.saturating_add(1);
                Err(Failed)
            }
        }
    }
}
