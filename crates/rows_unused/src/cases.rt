//! The files and the requests that a line names, and which call of their store fails.
use rows::text_of;
use rows_outside::input_of;
use snap_content::{Blob, OutOfMemory, Text};
use std::alloc::Global;

/// The number of the call of the store that fails, which is said as `store=3`; 0 where none does.
pub(crate) fn failing_call(column: &str) -> u64 {
    for said in column.split(' ') {
        if let Some(digits) = said.strip_prefix("store=") {
            return digits.parse().unwrap_or(0);
        }
    }
    0
}

/// The files that stand in columns, each as its path and its bytes.
pub(crate) fn files_of(alloc: Global, columns: &str) -> Result<Vec<(Text, Blob)>, OutOfMemory> {
    let mut files = Vec::new(alloc);
    let mut held = None;
    for column in columns.split('\t') {
        match held.take() {
            None => held = Some(text_of(alloc, column)?),
            Some(path) => files.push((path, input_of(alloc, column)?))?,
        }
    }
    Ok(files)
}

/// The requests of words, each of a module and a name, in a file at the top.
fn requests_of(alloc: Global, words: &str) -> Result<Blob, OutOfMemory> {
    let mut text = Text::empty();
    for word in words.split(' ') {
        if let Some((module, name)) = word.split_once("__") {
            text.push_ascii(
                alloc,
                "---\\nfile: b.rs\\nline: 3\\nexpr: d\\nvalue: 1\\nmodule: ",
            )?;
            text.push_str(alloc, module)?;
            text.push_ascii(alloc, "\\nname: ")?;
            text.push_str(alloc, name)?;
            text.push_ascii(alloc, "\\n")?;
        }
    }
    input_of(alloc, text.as_str())
}

/// The input that a column tells.
pub(crate) fn input_in(alloc: Global, column: &str) -> Result<Blob, OutOfMemory> {
    match column.strip_prefix("of ") {
        Some(words) => requests_of(alloc, words),
        None => input_of(alloc, column),
    }
}
