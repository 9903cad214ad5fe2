//! Runs of which each call of the store goes wrong in turn.
use crate::answers::{add_ending, add_files};
use crate::cases::{Case, case_of, files_of};
use rows::{add_number_column, add_text_column};
use rows_outside::{FailingStore, input_of, sink_of, source_of, words_of};
use snap_content::{OutOfMemory, Text};
use snap_run::run;
use std::alloc::Global;

/// No run of a row makes so many calls of the store.
const CALLS: u64 = 100;

/// The store of the files before, over which this call goes wrong.
fn store_of(alloc: Global, case: Case<'_>, call: u64) -> Result<FailingStore, OutOfMemory> {
    let mut store = FailingStore::new(alloc);
    for (path, bytes) in files_of(alloc, case.files)? {
        store.put(&path, bytes.as_slice())?;
    }
    store.go_wrong_at(case.wrong, call);
    Ok(store)
}

/// Runs over the store, and adds how that ended.
fn add_run(
    alloc: Global,
    line: &mut Text,
    case: Case<'_>,
    store: &mut FailingStore,
) -> Result<(), anyhow::Error> {
    let words = words_of(alloc, case.words, ' ')?;
    let mut source = source_of(alloc, case.outside, input_of(alloc, case.input)?)?;
    let mut sink = sink_of(alloc, case.outside)?;
    let status = run(alloc, &words, &mut source, &mut sink, store);
    add_ending(alloc, line, &status, sink.written())
}

/// Adds which call went wrong, or that none did.
fn add_call(alloc: Global, line: &mut Text, call: u64, wrong: bool) -> Result<(), OutOfMemory> {
    if wrong {
        add_number_column(alloc, line, "call", call)
    } else {
        add_text_column(alloc, line, "whole")
    }
}

/// Runs over the store, again where more runs are said, and adds how they ended and what stands then. Whether the call was made.
fn add_runs(
    alloc: Global,
    line: &mut Text,
    case: Case<'_>,
    call: u64,
    store: &mut FailingStore,
) -> Result<bool, anyhow::Error> {
    let mut first = Text::empty();
    add_run(alloc, &mut first, case, store)?;
    let wrong = store.went_wrong();
    store.go_wrong_at(case.wrong, 0);
    add_call(alloc, line, call, wrong)?;
    line.push_ascii(alloc, "\t")?;
    line.push_str(alloc, first.as_str())?;
    for _run in 1..case.times {
        add_run(alloc, line, case, store)?;
    }
    add_number_column(alloc, line, "faults", store.faults())?;
    add_number_column(alloc, line, "files", store.len() as u64)?;
    add_files(alloc, line, store)?;
    Ok(wrong)
}

/// The same over a store of its own.
fn add_case(
    alloc: Global,
    line: &mut Text,
    case: Case<'_>,
    call: u64,
) -> Result<bool, anyhow::Error> {
    let mut store = store_of(alloc, case, call)?;
    add_runs(alloc, line, case, call, &mut store)
}

/// The answer to the columns of a case: what stands after each call that went wrong, and after the run of which none did.
pub(crate) fn each_line(alloc: Global, columns: &str) -> Result<Text, anyhow::Error> {
    let case = case_of(columns);
    let mut line = Text::empty();
    for call in 1..=CALLS {
        if !add_case(alloc, &mut line, case, call)? {
            return Ok(line);
        }
    }
    Ok(line)
}
