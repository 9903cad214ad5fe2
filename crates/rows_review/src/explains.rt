//! What is told of reviews that would be refused.
use crate::cases::{Case, case_of, files_of};
use crate::runs::store_of;
use rows::add_number_column;
use rows_outside::{add_bytes, words_of};
use snap_content::{OutOfMemory, Text};
use snap_explain_review::explain_review;
use snap_io::{MemorySink, MemoryStore};
use std::alloc::Global;

/// How a run ended, what was written, and how often the store failed.
fn run_line(alloc: Global, case: Case<'_>, store: &mut MemoryStore) -> Result<Text, OutOfMemory> {
    let words = words_of(alloc, case.words, '|')?;
    let failing = vec![in alloc; case.write]?;
    let mut sink = MemorySink::new(alloc);
    sink.fail_at(failing);
    let status = explain_review(alloc, &words, &mut sink, store);
    let mut line = Text::empty();
    add_number_column(alloc, &mut line, "status", u64::from(status.code()))?;
    add_bytes(alloc, &mut line, sink.written())?;
    add_number_column(alloc, &mut line, "faults", store.faults())?;
    Ok(line)
}

/// The answer to the columns of an explanation.
pub(crate) fn explain_line(alloc: Global, columns: &str) -> Result<Text, anyhow::Error> {
    let case = case_of(columns);
    let files = files_of(alloc, case.files)?;
    let mut store = store_of(alloc, case, &files)?;
    Ok(run_line(alloc, case, &mut store)?)
}
