//! The calls of a store of any kind.
//!
//! - `read PATH`: the bytes of the file after `=`, or `nothing`.
//! - `write PATH BYTES`, `append PATH BYTES` and `remove PATH`: what was done.
//! - `list FOLDER`: the names in their order.
use crate::columns::{add_bytes, cut_word};
use rows::{add_escaped, add_text_column, text_of};
use snap_content::{OutOfMemory, Text};
use snap_io::{Names, Store, StoreError};
use std::alloc::Global;

/// Adds the answer to a call that stands as a word and what is after it.
pub(crate) fn add_called<S: Store>(
    alloc: Global,
    line: &mut Text,
    store: &mut S,
    word: &str,
    rest: &str,
) -> Result<(), OutOfMemory> {
    let (path, bytes) = cut_word(rest);
    let path = text_of(alloc, path)?;
    match word {
        "read" => add_read(alloc, line, store, &path),
        "list" => {
            let names = store.list(alloc, &path);
            add_listed(alloc, line, names)
        }
        "remove" => {
            let removed = store.remove(&path);
            add_removed(alloc, line, removed)
        }
        _ => add_written(alloc, line, store, word, &path, bytes),
    }
}

fn add_read<S: Store>(
    alloc: Global,
    line: &mut Text,
    store: &mut S,
    path: &Text,
) -> Result<(), OutOfMemory> {
    match store.read(alloc, path) {
        Ok(Some(bytes)) => add_bytes(alloc, line, bytes.as_slice()),
        Ok(None) => add_text_column(alloc, line, "nothing"),
        Err(error) => add_store_error(alloc, line, error),
    }
}

fn add_written<S: Store>(
    alloc: Global,
    line: &mut Text,
    store: &mut S,
    word: &str,
    path: &Text,
    column: &str,
) -> Result<(), OutOfMemory> {
    let bytes = text_of(alloc, column)?;
    match word {
        "write" => {
            let written = store.write(path, bytes.as_str().as_bytes());
            add_done(alloc, line, "written", written)
        }
        "append" => {
            let appended = store.append(path, bytes.as_str().as_bytes());
            add_done(alloc, line, "appended", appended)
        }
        _ => add_text_column(alloc, line, "! no such step"),
    }
}

fn add_done(
    alloc: Global,
    line: &mut Text,
    word: &str,
    answer: Result<(), StoreError>,
) -> Result<(), OutOfMemory> {
    match answer {
        Ok(()) => add_text_column(alloc, line, word),
        Err(error) => add_store_error(alloc, line, error),
    }
}

fn add_removed(
    alloc: Global,
    line: &mut Text,
    answer: Result<bool, StoreError>,
) -> Result<(), OutOfMemory> {
    match answer {
        Ok(true) => add_text_column(alloc, line, "removed"),
        Ok(false) => add_text_column(alloc, line, "nothing"),
        Err(error) => add_store_error(alloc, line, error),
    }
}

/// Adds the names of a list in their order, or its error.
pub(crate) fn add_listed(
    alloc: Global,
    line: &mut Text,
    answer: Result<Names, StoreError>,
) -> Result<(), OutOfMemory> {
    match answer {
        Ok(names) => add_sorted(alloc, line, names.into_vec()),
        Err(error) => add_store_error(alloc, line, error),
    }
}

fn add_sorted(alloc: Global, line: &mut Text, mut names: Vec<Text>) -> Result<(), OutOfMemory> {
    names.sort()?;
    add_text_column(alloc, line, "names")?;
    for name in names.as_slice() {
        line.push_ascii(alloc, " ")?;
        add_escaped(alloc, line, name.as_str())?;
    }
    Ok(())
}

/// Adds the name of an error.
pub(crate) fn add_store_error(
    alloc: Global,
    line: &mut Text,
    error: StoreError,
) -> Result<(), OutOfMemory> {
    let told = format!(in alloc; "! {error}")?;
    add_text_column(alloc, line, told.as_str())
}
