//! The store over real files, in the folder in which the program runs.
//!
//! Beside the calls of a store, a step may be one of the system: `folder PATH` and `file PATH BYTES` make what they name, `link PATH
//! TARGET` a link to what may not be there, `name PATH FILE` a second name of a file, and `clear PATH` takes a folder away with all
//! that it holds.
use crate::columns::cut_word;
use crate::stores::{add_called, add_store_error};
use rows::{add_number_column, add_text_column, first_column, text_of};
use snap_content::{OutOfMemory, Text};
use snap_io::{FolderStore, Names, Store, StoreError};
use std::alloc::Global;
use std::fs::Files;
use std::os::unix::fs::symlink;
use std::{fs, io};

/// The answers of a store over the files.
pub(crate) fn folder_line<R: Files + Alloc>(
    files: &R,
    alloc: Global,
    columns: &str,
) -> Result<Text, OutOfMemory> {
    let mut store = FolderStore::new(files);
    steps_line(files, alloc, &mut store, columns)
}

fn steps_line<R: Files + Alloc>(
    files: &R,
    alloc: Global,
    store: &mut FolderStore<&R>,
    columns: &str,
) -> Result<Text, OutOfMemory> {
    let mut line = Text::empty();
    for step in columns.split('\t') {
        add_step(files, alloc, &mut line, store, step)?;
    }
    Ok(line)
}

fn add_step<R: Files + Alloc>(
    files: &R,
    alloc: Global,
    line: &mut Text,
    store: &mut FolderStore<&R>,
    step: &str,
) -> Result<(), OutOfMemory> {
    let (word, rest) = cut_word(step);
    match word {
        "folder" | "file" | "link" | "name" | "clear" => {
            let (path, other) = cut_word(rest);
            let done = prepared(files, word, path, other);
            add_prepared(alloc, line, done)
        }
        _ => add_called(alloc, line, store, word, rest),
    }
}

/// What the system answers to a step.
fn prepared<R: Files + Alloc>(files: &R, word: &str, path: &str, other: &str) -> io::Result<()> {
    match word {
        "folder" => fs::create_dir(files, path),
        "file" => fs::write(files, path, other.as_bytes()),
        "link" => symlink(files, other, path),
        "name" => fs::hard_link(files, other, path),
        _ => fs::remove_dir_all(files, path),
    }
}

fn add_prepared(alloc: Global, line: &mut Text, done: io::Result<()>) -> Result<(), OutOfMemory> {
    match done {
        Ok(()) => add_text_column(alloc, line, "done"),
        Err(_) => add_text_column(alloc, line, "! not done"),
    }
}

/// How many files of a folder were written, each with a name of 255 digits, and how many names are listed then.
pub(crate) fn long_names_line<R: Files + Alloc>(
    files: &R,
    alloc: Global,
    columns: &str,
) -> Result<Text, OutOfMemory> {
    let (folder, digits) = first_column(columns);
    let count = digits.parse::<u32>().unwrap_or(0);
    let mut store = FolderStore::new(files);
    long_names_in(alloc, &mut store, folder, count)
}

fn long_names_in<S: Store>(
    alloc: Global,
    store: &mut S,
    folder: &str,
    count: u32,
) -> Result<Text, OutOfMemory> {
    let mut line = Text::empty();
    let written = long_names_written(alloc, store, folder, count)?;
    add_number_column(alloc, &mut line, "written", written)?;
    let names = store.list(alloc, &text_of(alloc, folder)?);
    add_listed_count(alloc, &mut line, names)?;
    Ok(line)
}

fn long_names_written<S: Store>(
    alloc: Global,
    store: &mut S,
    folder: &str,
    count: u32,
) -> Result<u64, OutOfMemory> {
    let mut written = 0u64;
    for number in 0..count {
        let path = format!(in alloc; "{folder}/{number:0>255}")?;
        if store.write(&text_of(alloc, path.as_str())?, b"").is_ok() {
            written = written.saturating_add(1);
        }
    }
    Ok(written)
}

/// Adds how many names a list has, or its error.
pub(crate) fn add_listed_count(
    alloc: Global,
    line: &mut Text,
    answer: Result<Names, StoreError>,
) -> Result<(), OutOfMemory> {
    match answer {
        Ok(names) => add_number_column(alloc, line, "listed", names.len() as u64),
        Err(error) => add_store_error(alloc, line, error),
    }
}
