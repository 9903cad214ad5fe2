//! Runs over forms of which a call may fail.
use crate::cases::{failing_call, files_of, input_in};
use rows::{add_number_column, first_column, text_of};
use rows_outside::{add_bytes, outside_of, sink_of, source_of};
use snap_content::{Blob, OutOfMemory, Text};
use snap_explain_unused::{UnusedStatus, name_unused};
use snap_io::{MemorySink, MemoryStore};
use std::alloc::Global;

/// The store of the files.
fn store_of(alloc: Global, said: &str, files: &str) -> Result<MemoryStore, OutOfMemory> {
    let failing = vec![in alloc; failing_call(said)]?;
    let mut store = MemoryStore::new(alloc);
    for (path, bytes) in files_of(alloc, files)? {
        store.put(&path, bytes.as_slice())?;
    }
    store.fail_at(failing);
    Ok(store)
}

/// Runs over the input into the sink.
fn run(
    alloc: Global,
    workspace: &str,
    said: &str,
    input: Blob,
    files: &str,
    sink: &mut MemorySink,
) -> Result<UnusedStatus, OutOfMemory> {
    let workspace = text_of(alloc, workspace)?;
    let mut source = source_of(alloc, outside_of(said), input)?;
    let mut store = store_of(alloc, said, files)?;
    Ok(name_unused(alloc, &workspace, &mut source, sink, &mut store))
}

/// How a run ended, and what was written.
pub(crate) fn unused_line(alloc: Global, columns: &str) -> Result<Text, anyhow::Error> {
    let (workspace, rest) = first_column(columns);
    let (said, rest) = first_column(rest);
    let (input, files) = first_column(rest);
    let input = input_in(alloc, input)?;
    let mut sink = sink_of(alloc, outside_of(said))?;
    let status = run(alloc, workspace, said, input, files, &mut sink)?;
    let mut line = Text::empty();
    add_number_column(alloc, &mut line, "status", u64::from(status.code()))?;
    add_bytes(alloc, &mut line, sink.written())?;
    Ok(line)
}
