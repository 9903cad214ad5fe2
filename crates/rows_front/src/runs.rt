//! Runs over forms of which a call may fail.
use rows::{add_number_column, add_text_column, first_column};
use rows_outside::{Outside, add_bytes, input_of, outside_of, sink_of, source_of, words_of};
use snap_content::{Blob, OutOfMemory, Text};
use snap_front::{FrontStatus, front, front_program};
use snap_io::MemorySink;
use std::alloc::Global;

/// What is answered to the words, of a document.
pub(crate) fn front_line(alloc: Global, columns: &str) -> Result<Text, anyhow::Error> {
    let (words, document) = first_column(columns);
    let words = words_of(alloc, words, '|')?;
    let document = input_of(alloc, document)?;
    let mut line = Text::empty();
    match front(alloc, &words, document.as_slice()) {
        Ok(answer) => add_bytes(alloc, &mut line, answer.as_slice())?,
        Err(error) => line.push_str(alloc, format!(in alloc; "! {error:?}")?.as_str())?,
    }
    Ok(line)
}

/// Runs over the input into the sink.
fn run(
    alloc: Global,
    words: &str,
    outside: Outside,
    input: Blob,
    sink: &mut MemorySink,
) -> Result<FrontStatus, OutOfMemory> {
    let words = words_of(alloc, words, '|')?;
    let mut source = source_of(alloc, outside, input)?;
    Ok(front_program(alloc, &words, &mut source, sink))
}

/// Adds how a run ended, and what is said of it.
fn add_status(alloc: Global, line: &mut Text, status: &FrontStatus) -> Result<(), OutOfMemory> {
    add_number_column(alloc, line, "status", u64::from(status.code()))?;
    let said = status.describe(alloc)?;
    add_text_column(alloc, line, said.as_str())
}

/// How a run ended, and what was written.
pub(crate) fn program_line(alloc: Global, columns: &str) -> Result<Text, anyhow::Error> {
    let (words, rest) = first_column(columns);
    let (outside, input) = first_column(rest);
    let outside = outside_of(outside);
    let input = input_of(alloc, input)?;
    let mut sink = sink_of(alloc, outside)?;
    let status = run(alloc, words, outside, input, &mut sink)?;
    let mut line = Text::empty();
    add_status(alloc, &mut line, &status)?;
    add_bytes(alloc, &mut line, sink.written())?;
    Ok(line)
}
