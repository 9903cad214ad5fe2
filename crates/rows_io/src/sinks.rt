//! Sinks in memory, and what a sink of any kind takes.
//!
//! A step is `write TEXT`, or for a sink that may fail `fail NUMBER..`, which lists the calls that fail. After the answers to the
//! steps stands what is written then.
use crate::columns::{add_bytes, cut_word, numbers_of};
use rows::{add_number_column, add_text_column, text_of};
use snap_content::{OutOfMemory, Text};
use snap_io::{Fault, MemorySink, Sink, SteadySink};
use std::alloc::Global;

/// Adds how many bytes a sink takes of a text.
pub(crate) fn add_write<S: Sink>(
    alloc: Global,
    line: &mut Text,
    sink: &mut S,
    column: &str,
) -> Result<(), OutOfMemory> {
    let text = text_of(alloc, column)?;
    match sink.write(text.as_str().as_bytes()) {
        Ok(count) => add_number_column(alloc, line, "took", count as u64),
        Err(Fault) => add_text_column(alloc, line, "! Fault"),
    }
}

/// Adds the answer to each write of the columns.
pub(crate) fn add_writes<S: Sink>(
    alloc: Global,
    line: &mut Text,
    sink: &mut S,
    columns: &str,
) -> Result<(), OutOfMemory> {
    for step in columns.split('\t') {
        let (_, text) = cut_word(step);
        add_write(alloc, line, sink, text)?;
    }
    Ok(())
}

/// What a sink of which the listed calls fail takes.
pub(crate) fn memory_sink_line(alloc: Global, columns: &str) -> Result<Text, OutOfMemory> {
    let mut sink = MemorySink::new(alloc);
    steps_line(alloc, &mut sink, columns)
}

fn steps_line(alloc: Global, sink: &mut MemorySink, columns: &str) -> Result<Text, OutOfMemory> {
    let mut line = Text::empty();
    for step in columns.split('\t') {
        add_step(alloc, &mut line, sink, step)?;
    }
    add_bytes(alloc, &mut line, sink.written())?;
    Ok(line)
}

fn add_step(
    alloc: Global,
    line: &mut Text,
    sink: &mut MemorySink,
    step: &str,
) -> Result<(), OutOfMemory> {
    let (word, rest) = cut_word(step);
    if word == "fail" {
        sink.fail_at(numbers_of(alloc, rest)?);
        return add_text_column(alloc, line, "set");
    }
    add_write(alloc, line, sink, rest)
}

/// What a sink that never fails takes.
pub(crate) fn steady_sink_line(alloc: Global, columns: &str) -> Result<Text, OutOfMemory> {
    let mut sink = SteadySink::new(alloc);
    let mut line = Text::empty();
    add_writes(alloc, &mut line, &mut sink, columns)?;
    add_bytes(alloc, &mut line, sink.written())?;
    Ok(line)
}
