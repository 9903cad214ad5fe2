//! A source over a reader, and a sink over a writer. They tell nothing of their bytes.
ghost use Rattle.std.specs.Prelude.{◌≡◌, ◌<◌, ◌∷◌, [], None, length, take, IfOk};
ghost use Rattle.std.specs.Io.{ReadsAtMost, WritesAtMost};
ghost use Rattle.std.specs.Io.KnownBytes.{ReadConsumes, Appends, Keeps};
ghost use Rattle.snap_io.specs.Adapters.{source_faults, sink_faults, reader_of, writer_of, sink_asked};
ghost use Rattle.snap_io.specs.Calls.{flushes, put_call, done_or_failed, SinkWritten};
ghost use Rattle.snap_io.specs.Causes.{Counted, CountedOnce, Rose, is_fault, one_more};

use crate::call::{Answer, Asked};
use crate::outside::{Fault, Sink, Source};
use crate::record::Record;
use std::io::{Read, Write};

/// A source that reads from the reader. An error of the reader is a fault.
#[derive(Drop)]
pub struct StreamSource<R: Read + Drop> {
    reader: R,
    faults: u64,
}

impl<R: Read + Drop> StreamSource<R> {
    pub fn new(reader: R) -> StreamSource<R>
        ensures { source_faults result ≡ 0 }
    {
        StreamSource { reader, faults: 0 }
    }
}

impl<R: Read + Drop> Source for StreamSource<R> {
    ghost left = { λ _. None };

    ghost faults = { λ source. source.faults };

    fn read(&mut self, buffer: &mut [u8]) -> Result<usize, Fault>
        ensures bound { ReadsAtMost result buffer.new }
        ensures given { ReadConsumes (R.Read.remaining (reader_of self.old))
            (R.Read.remaining (reader_of self.new)) result buffer.new }
        ensures cause { Counted is_fault (source_faults self.old) (source_faults self.new) result }
        ensures once { CountedOnce is_fault (source_faults self.old) (source_faults self.new) result }
    {
        match self.reader.read(buffer) {
            Ok(count) => Ok(count),
            Err(_) => {
                self.faults = self.faults.saturating_add(1);
                Err(Fault)
            }
        }
    }
}

/// A sink that writes to the writer, and flushes it. An error of the writer is a fault,
/// and so is a writer that takes nothing of some bytes.
#[derive(Drop)]
pub struct StreamSink<W: Write + Drop> {
    writer: W,
    record: Record,
    faults: u64,
}

impl<W: Write + Drop> StreamSink<W> {
    pub fn new(writer: W) -> StreamSink<W>
        ensures faults { sink_faults result ≡ 0 }
        ensures asked { sink_asked result ≡ [] }
    {
        StreamSink {
            writer,
            record: Record::new(),
            faults: 0,
        }
    }

    fn note(&mut self, asked: Asked, answer: Answer, bytes: &[u8])
        ensures noted { sink_asked self.new ≡ (asked, answer, [], bytes.now) ∷ sink_asked self.old }
        ensures writer { writer_of self.new ≡ writer_of self.old }
        ensures faults { sink_faults self.new ≡ sink_faults self.old }
    {
        self.record = Record::with(&self.record, &asked, &answer, "", bytes);
    }

    /// Hands the bytes to the writer. How many of the front it took.
    fn put(&mut self, bytes: &[u8]) -> Result<usize, Fault>
        ensures bound { WritesAtMost result bytes.now }
        ensures taken { IfOk result (λ count.
            Appends (W.Write.contents (writer_of self.old)) (W.Write.contents (writer_of self.new))
            (take count bytes.now)) }
        ensures noted { sink_asked self.new ≡ put_call result bytes.now ∷ sink_asked self.old }
        ensures faults { sink_faults self.new ≡ sink_faults self.old }
    {
        match self.writer.write(bytes) {
            Ok(count) => {
                self.note(Asked::Write, Answer::Done, &bytes[..count]);
                Ok(count)
            }
            Err(_) => {
                self.note(Asked::Write, Answer::Failed, &[]);
                Err(Fault)
            }
        }
    }

    /// Has the writer hand on what it holds back.
    fn flush(&mut self) -> Result<(), Fault>
        ensures kept { Keeps (W.Write.contents (writer_of self.old))
            (W.Write.contents (writer_of self.new)) }
        ensures noted { sink_asked self.new
            ≡ flushes (done_or_failed result) ∷ sink_asked self.old }
        ensures faults { sink_faults self.new ≡ sink_faults self.old }
    {
        match self.writer.flush() {
            Ok(()) => {
                self.note(Asked::Flush, Answer::Done, &[]);
                Ok(())
            }
            Err(_) => {
                self.note(Asked::Flush, Answer::Failed, &[]);
                Err(Fault)
            }
        }
    }

    fn fault(&mut self) -> Fault
        ensures rose { Rose (sink_faults self.old) (sink_faults self.new) }
        ensures once { sink_faults self.new ≡ one_more (sink_faults self.old) }
        ensures asked { sink_asked self.new ≡ sink_asked self.old }
    {
        self.faults = self.faults.saturating_add(1);
        Fault
    }
}

impl<W: Write + Drop> Sink for StreamSink<W> {
    ghost written = { λ _. None };

    ghost faults = { λ sink. sink.faults };

    fn write(&mut self, bytes: &[u8]) -> Result<usize, Fault>
        ensures bound { WritesAtMost result bytes.now }
        ensures some { IfOk result (λ count. 0 < length bytes.now → 0 < count) }
        ensures taken { IfOk result (λ count.
            Appends (W.Write.contents (writer_of self.old)) (W.Write.contents (writer_of self.new))
            (take count bytes.now)) }
        ensures asked { SinkWritten bytes.now result (sink_asked self.old) (sink_asked self.new) }
        ensures cause { Counted is_fault (sink_faults self.old) (sink_faults self.new) result }
        ensures once { CountedOnce is_fault (sink_faults self.old) (sink_faults self.new) result }
    {
        let count = match self.put(bytes) {
            Ok(0) if !bytes.is_empty() => return Err(self.fault()),
            Ok(count) => count,
            Err(Fault) => return Err(self.fault()),
        };
        match self.flush() {
            Ok(()) => Ok(count),
            Err(Fault) => Err(self.fault()),
        }
    }
}
