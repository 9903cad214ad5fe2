//! The source over a reader and the sink over a writer.
use crate::sinks::{add_write, add_writes};
use crate::sources::{Reading, add_reads, reading_of};
use rows::{first_column, text_of};
use snap_content::{OutOfMemory, Text};
use snap_io::{Sink, Source, StreamSink, StreamSource};
use std::alloc::Global;
use std::fs::Files;
use std::io::{BufWriter, ErrorKind, Read, Write};
use std::{fs, io};

/// Fails at its first call, gives or takes nothing at its second, and does not flush at its third.
#[derive(Drop)]
struct Stubborn {
    calls: u8,
}

fn refused() -> io::Error {
    io::Error::from(ErrorKind::Other)
}

impl Read for Stubborn {
    fn read(&mut self, buf: &mut [u8]) -> io::Result<usize> {
        self.calls = self.calls.saturating_add(1);
        match self.calls {
            1 => Err(refused()),
            2 => Ok(0),
            _ => b"abc".as_slice().read(buf),
        }
    }
}

impl Write for Stubborn {
    fn write(&mut self, buf: &[u8]) -> io::Result<usize> {
        self.calls = self.calls.saturating_add(1);
        match self.calls {
            1 => Err(refused()),
            2 => Ok(0),
            _ => Ok(buf.len()),
        }
    }

    fn flush(&mut self) -> io::Result<()> {
        if self.calls == 3 {
            Err(refused())
        } else {
            Ok(())
        }
    }
}

/// Takes one byte of a piece.
#[derive(Drop)]
struct Slow;

impl Write for Slow {
    fn write(&mut self, buf: &[u8]) -> io::Result<usize> {
        Ok(buf.len().min(1))
    }

    fn flush(&mut self) -> io::Result<()> {
        Ok(())
    }
}

/// What a source over the bytes of a text gives.
pub(crate) fn reader_line(alloc: Global, columns: &str) -> Result<Text, OutOfMemory> {
    let (said, held) = first_column(columns);
    let text = text_of(alloc, held)?;
    let mut source = StreamSource::new(text.as_str().as_bytes());
    let mut line = Text::empty();
    add_reads(alloc, &mut line, &mut source, reading_of(said))?;
    Ok(line)
}

/// What a source over a stubborn reader gives.
pub(crate) fn stubborn_reader_line(alloc: Global, column: &str) -> Result<Text, OutOfMemory> {
    let mut source = StreamSource::new(Stubborn { calls: 0 });
    let mut line = Text::empty();
    add_reads(alloc, &mut line, &mut source, reading_of(column))?;
    Ok(line)
}

/// What a sink over a list of bytes takes.
pub(crate) fn writer_line(alloc: Global, columns: &str) -> Result<Text, OutOfMemory> {
    let mut sink = StreamSink::new(Vec::new(alloc));
    let mut line = Text::empty();
    add_writes(alloc, &mut line, &mut sink, columns)?;
    Ok(line)
}

/// What a sink over a stubborn writer takes.
pub(crate) fn stubborn_writer_line(alloc: Global, columns: &str) -> Result<Text, OutOfMemory> {
    let mut sink = StreamSink::new(Stubborn { calls: 0 });
    let mut line = Text::empty();
    add_writes(alloc, &mut line, &mut sink, columns)?;
    Ok(line)
}

/// What a sink over a slow writer takes.
pub(crate) fn slow_writer_line(alloc: Global, columns: &str) -> Result<Text, OutOfMemory> {
    let mut sink = StreamSink::new(Slow);
    let mut line = Text::empty();
    add_writes(alloc, &mut line, &mut sink, columns)?;
    Ok(line)
}

/// What a sink over a file takes, through a writer that holds bytes back, and what a source over the same file gives after each
/// write, while the sink is still open.
pub(crate) fn file_line<R: Files + Alloc>(
    files: &R,
    alloc: Global,
    columns: &str,
) -> Result<Text, anyhow::Error> {
    let (path, texts) = first_column(columns);
    let line = through_file(files, alloc, path, texts)?;
    fs::remove_file(files, path)?;
    Ok(line)
}

fn through_file<R: Files + Alloc>(
    files: &R,
    alloc: Global,
    path: &str,
    texts: &str,
) -> Result<Text, anyhow::Error> {
    let file = fs::create(files, path)?;
    let mut sink = StreamSink::new(BufWriter::new(alloc, file)?);
    with_sink(files, alloc, &mut sink, path, texts)
}

fn with_sink<R: Files + Alloc, S: Sink>(
    files: &R,
    alloc: Global,
    sink: &mut S,
    path: &str,
    texts: &str,
) -> Result<Text, anyhow::Error> {
    let mut source = StreamSource::new(fs::open(files, path)?);
    with_both(alloc, sink, &mut source, texts)
}

fn with_both<S: Sink, T: Source>(
    alloc: Global,
    sink: &mut S,
    source: &mut T,
    texts: &str,
) -> Result<Text, anyhow::Error> {
    let mut line = Text::empty();
    for text in texts.split('\t') {
        add_write(alloc, &mut line, sink, text)?;
        add_reads(alloc, &mut line, source, three_reads())?;
    }
    Ok(line)
}

fn three_reads() -> Reading {
    reading_of("reads=3")
}
