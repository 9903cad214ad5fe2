//! The files that a line names, and which call of their store fails.
use rows::text_of;
use rows_outside::input_of;
use snap_content::{Blob, OutOfMemory, Text};
use std::alloc::Global;

/// The number of the call of the store that fails, which is said as `store=3`; 0 where none does.
pub(crate) fn failing_call(column: &str) -> u64 {
    for said in column.split(' ') {
        if let Some(digits) = said.strip_prefix("store=") {
            return digits.parse().unwrap_or(0);
        }
    }
    0
}

/// The snapshot that the requests of most rows ask for.
const USUAL: (&str, &str) = (
    "snapshots/a__c.snap",
    "---\nsource: b.rs\nexpression: d\n---\n1\n",
);

/// The files that stand in columns, each as its path and its bytes; where no column stands, the usual snapshot.
pub(crate) fn files_of(alloc: Global, columns: &str) -> Result<Vec<(Text, Blob)>, OutOfMemory> {
    let mut files = Vec::new(alloc);
    if columns.is_empty() {
        let (path, text) = USUAL;
        files.push((text_of(alloc, path)?, input_of(alloc, text)?))?;
        return Ok(files);
    }
    let mut held = None;
    for column in columns.split('\t') {
        match held.take() {
            None => held = Some(text_of(alloc, column)?),
            Some(path) => files.push((path, input_of(alloc, column)?))?,
        }
    }
    Ok(files)
}
