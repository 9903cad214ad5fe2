//! What a line says of a review.
use rows::{first_column, text_of};
use rows_outside::input_of;
use snap_content::{Blob, OutOfMemory, Text};
use std::alloc::Global;

/// The columns of a review.
#[derive(Clone, Copy, Debug)]
pub(crate) struct Case<'a> {
    pub words: &'a str,
    /// The number of the call of the store that fails; no call has the number 0.
    pub store: u64,
    /// The same of the sink.
    pub write: u64,
    pub files: &'a str,
}

/// The case that stands in these columns.
pub(crate) fn case_of(columns: &str) -> Case<'_> {
    let (words, rest) = first_column(columns);
    let (said, files) = first_column(rest);
    Case {
        words,
        store: number_said(said, "store"),
        write: number_said(said, "write"),
        files,
    }
}

/// The number that is said under this name, as in `store=3`; else 0.
fn number_said(column: &str, name: &str) -> u64 {
    for said in column.split(' ') {
        let (word, digits) = said.split_once('=').unwrap_or((said, ""));
        if word == name {
            return digits.parse().unwrap_or(0);
        }
    }
    0
}

/// The files that stand in columns, each as its path and its bytes.
pub(crate) fn files_of(alloc: Global, columns: &str) -> Result<Vec<(Text, Blob)>, OutOfMemory> {
    let mut files = Vec::new(alloc);
    let mut path = None;
    for column in columns.split('\t') {
        match path.take() {
            None => path = Some(text_of(alloc, column)?),
            Some(path) => files.push((path, input_of(alloc, column)?))?,
        }
    }
    Ok(files)
}
