//! Sources in memory, and what a source of any kind gives.
//!
//! A column says how a source is made and read: `piece=3 fail=2 room=4 reads=9`. What is not said of it is a piece of one byte, no
//! fault, room for four bytes, and one read.
use crate::columns::add_bytes;
use rows::{add_text_column, first_column, text_of};
use snap_content::{Blob, OutOfMemory, Text};
use snap_io::{Fault, MemorySource, Source, SteadySource};
use std::alloc::Global;

/// How a source is made and read.
#[derive(Clone, Copy, Debug)]
pub(crate) struct Reading {
    /// How many bytes the source gives at most in one call.
    pub piece: usize,
    /// The number of the call that fails. The number 0 never comes.
    pub fail: u64,
    /// For how many bytes the buffer has room.
    pub room: usize,
    /// How many calls there are.
    pub reads: u32,
}

/// What the column says.
pub(crate) fn reading_of(column: &str) -> Reading {
    let mut reading = Reading {
        piece: 1,
        fail: 0,
        room: 4,
        reads: 1,
    };
    for said in column.split(' ') {
        let (name, digits) = said.split_once('=').unwrap_or((said, ""));
        reading = with_said(reading, name, digits);
    }
    reading
}

/// The same, where this is said too.
fn with_said(mut reading: Reading, name: &str, digits: &str) -> Reading {
    match name {
        "piece" => reading.piece = digits.parse().unwrap_or(0),
        "fail" => reading.fail = digits.parse().unwrap_or(0),
        "room" => reading.room = digits.parse().unwrap_or(0),
        "reads" => reading.reads = digits.parse().unwrap_or(0),
        _ => {}
    }
    reading
}

/// Adds what each of so many reads gives.
pub(crate) fn add_reads<S: Source>(
    alloc: Global,
    line: &mut Text,
    source: &mut S,
    reading: Reading,
) -> Result<(), OutOfMemory> {
    let mut buffer = Vec::from_elem(alloc, 0u8, reading.room)?;
    for _ in 0..reading.reads {
        add_read(alloc, line, source, buffer.as_mut_slice())?;
    }
    Ok(())
}

fn add_read<S: Source>(
    alloc: Global,
    line: &mut Text,
    source: &mut S,
    buffer: &mut [u8],
) -> Result<(), OutOfMemory> {
    match source.read(buffer) {
        Ok(count) => add_bytes(alloc, line, &buffer[..count]),
        Err(Fault) => add_text_column(alloc, line, "! Fault"),
    }
}

fn held_of(alloc: Global, column: &str) -> Result<Blob, OutOfMemory> {
    let text = text_of(alloc, column)?;
    Blob::from_slice(alloc, text.as_str().as_bytes())
}

/// What a source of which a call fails gives.
pub(crate) fn memory_source_line(alloc: Global, columns: &str) -> Result<Text, OutOfMemory> {
    let (said, held) = first_column(columns);
    let reading = reading_of(said);
    let failing = vec![in alloc; reading.fail]?;
    let mut source = MemorySource::new(held_of(alloc, held)?, reading.piece);
    source.fail_at(failing);
    reads_line(alloc, &mut source, reading)
}

fn reads_line<S: Source>(
    alloc: Global,
    source: &mut S,
    reading: Reading,
) -> Result<Text, OutOfMemory> {
    let mut line = Text::empty();
    add_reads(alloc, &mut line, source, reading)?;
    Ok(line)
}

/// What a source that never fails gives.
pub(crate) fn steady_source_line(alloc: Global, columns: &str) -> Result<Text, OutOfMemory> {
    let (said, held) = first_column(columns);
    let reading = reading_of(said);
    let mut source = SteadySource::new(held_of(alloc, held)?, reading.piece);
    reads_line(alloc, &mut source, reading)
}
