//! Runs over forms that never fail.
use crate::answers::{add_ending, add_files};
use crate::cases::{Case, case_of, files_of};
use rows::add_number_column;
use rows_outside::{input_of, words_of};
use snap_content::{OutOfMemory, Text};
use snap_io::{SteadySink, SteadySource, SteadyStore};
use snap_run::run;
use std::alloc::Global;

/// The store of the files before.
fn store_of(alloc: Global, case: Case<'_>) -> Result<SteadyStore, OutOfMemory> {
    let mut store = SteadyStore::new(alloc);
    for (path, bytes) in files_of(alloc, case.files)? {
        store.put(&path, bytes.as_slice())?;
    }
    Ok(store)
}

/// Runs over the store, and adds how that ended.
fn add_run(
    alloc: Global,
    line: &mut Text,
    case: Case<'_>,
    store: &mut SteadyStore,
) -> Result<(), anyhow::Error> {
    let words = words_of(alloc, case.words, ' ')?;
    let mut source = SteadySource::new(input_of(alloc, case.input)?, case.outside.piece);
    let mut sink = SteadySink::new(alloc);
    let status = run(alloc, &words, &mut source, &mut sink, store);
    add_ending(alloc, line, &status, sink.written())
}

/// The answer to the columns of a case.
pub(crate) fn steady_line(alloc: Global, columns: &str) -> Result<Text, anyhow::Error> {
    let case = case_of(columns);
    let mut store = store_of(alloc, case)?;
    files_line(alloc, case, &mut store)
}

/// The same without the files.
pub(crate) fn ends_line(alloc: Global, columns: &str) -> Result<Text, anyhow::Error> {
    let case = case_of(columns);
    let mut store = store_of(alloc, case)?;
    runs_line(alloc, case, &mut store)
}

fn files_line(
    alloc: Global,
    case: Case<'_>,
    store: &mut SteadyStore,
) -> Result<Text, anyhow::Error> {
    let mut line = runs_line(alloc, case, store)?;
    add_files(alloc, &mut line, store)?;
    Ok(line)
}

/// How the runs ended, and how many files there are then.
fn runs_line(
    alloc: Global,
    case: Case<'_>,
    store: &mut SteadyStore,
) -> Result<Text, anyhow::Error> {
    let mut line = Text::empty();
    for _run in 0..case.times {
        add_run(alloc, &mut line, case, store)?;
    }
    add_number_column(alloc, &mut line, "files", store.len() as u64)?;
    Ok(line)
}
