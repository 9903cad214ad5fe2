//! Reviews over forms of which a call may fail.
use crate::cases::{Case, case_of, files_of};
use rows::{add_file, add_number_column, add_text_column};
use rows_outside::{add_bytes, words_of};
use snap_content::{Blob, OutOfMemory, Text};
use snap_io::{MemorySink, MemoryStore};
use snap_review::{ReviewStatus, review};
use std::alloc::Global;

/// A store of these files.
pub(crate) fn store_of(
    alloc: Global,
    case: Case<'_>,
    files: &[(Text, Blob)],
) -> Result<MemoryStore, OutOfMemory> {
    let failing = vec![in alloc; case.store]?;
    let mut store = MemoryStore::new(alloc);
    for (path, bytes) in files {
        store.put(path, bytes.as_slice())?;
    }
    store.fail_at(failing);
    Ok(store)
}

/// Adds how a review ended, and what is said of it.
fn add_status(alloc: Global, line: &mut Text, status: &ReviewStatus) -> Result<(), OutOfMemory> {
    add_number_column(alloc, line, "status", u64::from(status.code()))?;
    let said = status.describe(alloc)?;
    add_text_column(alloc, line, said.as_str())
}

/// Reviews, and adds how that ended and what was written.
fn add_run(
    alloc: Global,
    line: &mut Text,
    case: Case<'_>,
    store: &mut MemoryStore,
) -> Result<(), OutOfMemory> {
    let words = words_of(alloc, case.words, '|')?;
    let failing = vec![in alloc; case.write]?;
    let mut sink = MemorySink::new(alloc);
    sink.fail_at(failing);
    let status = review(alloc, &words, &mut sink, store);
    let added = add_status(alloc, line, &status);
    drop(status);
    added?;
    add_bytes(alloc, line, sink.written())
}

/// Adds how often the store failed, how many files it has, and what those of the case are then.
fn add_store(
    alloc: Global,
    line: &mut Text,
    store: &MemoryStore,
    files: &[(Text, Blob)],
) -> Result<(), OutOfMemory> {
    add_number_column(alloc, line, "faults", store.faults())?;
    add_number_column(alloc, line, "files", store.len() as u64)?;
    for (path, _) in files {
        line.push(alloc, '\t')?;
        add_file(alloc, line, store.get(path))?;
    }
    Ok(())
}

/// The same over a store that is lent.
fn run_line(
    alloc: Global,
    case: Case<'_>,
    store: &mut MemoryStore,
    files: &[(Text, Blob)],
) -> Result<Text, OutOfMemory> {
    let mut line = Text::empty();
    add_run(alloc, &mut line, case, store)?;
    add_store(alloc, &mut line, store, files)?;
    Ok(line)
}

/// The answer to the columns of a review.
pub(crate) fn review_line(alloc: Global, columns: &str) -> Result<Text, anyhow::Error> {
    let case = case_of(columns);
    let files = files_of(alloc, case.files)?;
    let mut store = store_of(alloc, case, &files)?;
    Ok(run_line(alloc, case, &mut store, &files)?)
}
