//! Runs over forms of which a call may fail.
use crate::answers::{add_ending, add_files};
use crate::cases::{Case, case_of, files_of};
use rows::add_number_column;
use rows_outside::{input_of, sink_of, source_of, words_of};
use snap_content::{OutOfMemory, Text};
use snap_io::MemoryStore;
use snap_run::run;
use std::alloc::Global;

/// The store of the files before.
fn store_of(alloc: Global, case: Case<'_>) -> Result<MemoryStore, OutOfMemory> {
    let failing = vec![in alloc; u64::from(case.store)]?;
    let mut store = MemoryStore::new(alloc);
    for (path, bytes) in files_of(alloc, case.files)? {
        store.put(&path, bytes.as_slice())?;
    }
    store.fail_at(failing);
    Ok(store)
}

/// Runs over the store, and adds how that ended.
fn add_run(
    alloc: Global,
    line: &mut Text,
    case: Case<'_>,
    store: &mut MemoryStore,
) -> Result<(), anyhow::Error> {
    let words = words_of(alloc, case.words, ' ')?;
    let mut source = source_of(alloc, case.outside, input_of(alloc, case.input)?)?;
    let mut sink = sink_of(alloc, case.outside)?;
    let status = run(alloc, &words, &mut source, &mut sink, store);
    add_ending(alloc, line, &status, sink.written())
}

/// Adds how often the store failed, and its files. No call of it fails any more.
fn add_store(alloc: Global, line: &mut Text, store: &mut MemoryStore) -> Result<(), anyhow::Error> {
    store.fail_at(Vec::new(alloc));
    add_number_column(alloc, line, "faults", store.faults())?;
    add_number_column(alloc, line, "files", store.len() as u64)?;
    add_files(alloc, line, store)
}

/// The answer to the columns of a case.
pub(crate) fn run_line(alloc: Global, columns: &str) -> Result<Text, anyhow::Error> {
    let case = case_of(columns);
    let mut store = store_of(alloc, case)?;
    runs_line(alloc, case, &mut store)
}

/// The same over a store that is lent: where it is alive at an early return, that is dear to prove.
fn runs_line(
    alloc: Global,
    case: Case<'_>,
    store: &mut MemoryStore,
) -> Result<Text, anyhow::Error> {
    let mut line = Text::empty();
    for _run in 0..case.times {
        add_run(alloc, &mut line, case, store)?;
    }
    add_store(alloc, &mut line, store)?;
    Ok(line)
}
