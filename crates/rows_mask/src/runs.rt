//! Runs over forms of which a call may fail.
use crate::built::built_of;
use rows::{add_number_column, add_text_column, first_column};
use rows_outside::{Outside, add_bytes, input_of, outside_of, sink_of, source_of, words_of};
use snap_content::{Blob, OutOfMemory, Text};
use snap_io::MemorySink;
use snap_mask::{MaskStatus, mask};
use std::alloc::Global;

/// Runs over the input into the sink.
fn run(
    alloc: Global,
    words: &str,
    outside: Outside,
    input: Blob,
    sink: &mut MemorySink,
) -> Result<MaskStatus, OutOfMemory> {
    let words = words_of(alloc, words, ' ')?;
    let mut source = source_of(alloc, outside, input)?;
    Ok(mask(alloc, &words, &mut source, sink))
}

/// Adds how a run ended, and what is said of it.
pub(crate) fn add_status(
    alloc: Global,
    line: &mut Text,
    status: MaskStatus,
) -> Result<(), OutOfMemory> {
    add_number_column(alloc, line, "status", u64::from(status.code()))?;
    let said = status.describe(alloc)?;
    add_text_column(alloc, line, said.as_str())
}

/// How a run ended, and what was written.
pub(crate) fn mask_line(alloc: Global, columns: &str) -> Result<Text, anyhow::Error> {
    let (words, rest) = first_column(columns);
    let (outside, input) = first_column(rest);
    let outside = outside_of(outside);
    let input = input_of(alloc, input)?;
    let mut sink = sink_of(alloc, outside)?;
    let status = run(alloc, words, outside, input, &mut sink)?;
    let mut line = Text::empty();
    add_status(alloc, &mut line, status)?;
    add_bytes(alloc, &mut line, sink.written())?;
    Ok(line)
}

/// How a run over a built input ended, and how many bytes were written.
pub(crate) fn built_line(alloc: Global, columns: &str) -> Result<Text, anyhow::Error> {
    let (words, rest) = first_column(columns);
    let (outside, parts) = first_column(rest);
    let outside = outside_of(outside);
    let input = built_of(alloc, parts)?;
    let mut sink = sink_of(alloc, outside)?;
    let status = run(alloc, words, outside, input, &mut sink)?;
    let mut line = Text::empty();
    add_status(alloc, &mut line, status)?;
    add_number_column(alloc, &mut line, "written", sink.written().len() as u64)?;
    Ok(line)
}
