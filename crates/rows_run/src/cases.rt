//! What a line says of a run.
use rows::{first_column, text_of};
use rows_outside::{Outside, Wrong, input_of, outside_of, wrong_named};
use snap_content::{Blob, OutOfMemory, Text};
use std::alloc::Global;

/// The columns of a run.
#[derive(Clone, Copy, Debug)]
pub(crate) struct Case<'a> {
    pub words: &'a str,
    pub outside: Outside,
    /// The number of the call of the store that fails.
    pub store: u32,
    /// What the call of the store that goes wrong does, where each does in turn.
    pub wrong: Wrong,
    /// How many runs follow each other over the same store.
    pub times: u32,
    pub input: &'a str,
    pub files: &'a str,
}

/// The case that stands in these columns. What is not said of the store is no fault, and one run.
pub(crate) fn case_of(columns: &str) -> Case<'_> {
    let (words, rest) = first_column(columns);
    let (said, rest) = first_column(rest);
    let (input, files) = first_column(rest);
    Case {
        words,
        outside: outside_of(said),
        store: number_said(said, "store").unwrap_or(0),
        wrong: wrong_named(word_said(said, "wrong")),
        times: number_said(said, "times").unwrap_or(1),
        input,
        files,
    }
}

/// The number that is said under this name, as in `store=3`.
fn number_said(column: &str, name: &str) -> Option<u32> {
    word_said(column, name).parse().ok()
}

/// The word that is said under this name, as in `wrong=done`; an empty one where none is.
fn word_said<'a>(column: &'a str, name: &str) -> &'a str {
    for said in column.split(' ') {
        let (found, word) = said.split_once('=').unwrap_or((said, ""));
        if found == name {
            return word;
        }
    }
    ""
}

/// The files that stand in columns, each as its path and its bytes.
pub(crate) fn files_of(alloc: Global, columns: &str) -> Result<Vec<(Text, Blob)>, OutOfMemory> {
    let mut files = Vec::new(alloc);
    let mut held = None;
    for column in columns.split('\t') {
        match held.take() {
            None => held = Some(text_of(alloc, column)?),
            Some(path) => files.push((path, input_of(alloc, column)?))?,
        }
    }
    Ok(files)
}
