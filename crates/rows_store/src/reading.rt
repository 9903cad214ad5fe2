//! Files that are cut, and files that are read.
use crate::shown::{add_metadata, snapshot_into_line};
use rows::{add_escaped, first_column, text_of};
use rows_snapshots::bytes_of;
use snap_content::{Error, OutOfMemory, Text};
use snap_io::{SteadyStore, Store};
use snap_store::legacy::{legacy_metadata, legacy_text};
use snap_store::split::{Headed, split_file};
use snap_store::{MetaData, Snapshot};
use std::alloc::Global;

/// The header and the body of a file, in two columns.
fn headed_line(alloc: Global, headed: &Headed) -> Result<Text, OutOfMemory> {
    let mut line = Text::empty();
    add_escaped(alloc, &mut line, headed.header.as_str())?;
    line.push_ascii(alloc, "\t")?;
    add_escaped(alloc, &mut line, headed.body.as_str())?;
    Ok(line)
}

/// The header and the body of a file.
pub(crate) fn split_line(alloc: Global, columns: &str) -> Result<Text, OutOfMemory> {
    let file = text_of(alloc, columns)?;
    match split_file(alloc, file.as_str())? {
        Some(headed) => headed_line(alloc, &headed),
        None => Text::from_ascii(alloc, "no header"),
    }
}

/// What metadata tell, and a text after them.
fn told_before(alloc: Global, metadata: &MetaData, text: &Text) -> Result<Text, OutOfMemory> {
    let mut line = Text::empty();
    add_metadata(alloc, &mut line, metadata)?;
    line.push_ascii(alloc, "\t")?;
    add_escaped(alloc, &mut line, text.as_str())?;
    Ok(line)
}

/// The metadata and the body of a file that has no header.
pub(crate) fn legacy_line(alloc: Global, columns: &str) -> Result<Text, OutOfMemory> {
    let file = text_of(alloc, columns)?;
    let text = legacy_text(alloc, file.as_str())?;
    let metadata = legacy_metadata(alloc, file.as_str())?;
    told_before(alloc, &metadata, &text)
}

/// The snapshot of a store's file.
pub(crate) fn found_line<S: Store>(
    alloc: Global,
    store: &mut S,
    path: &Text,
) -> Result<Text, Error> {
    Ok(snapshot_into_line(alloc, Snapshot::from_file(alloc, store, path)?)?)
}

/// A store of one file.
fn store_of(alloc: Global, path: &Text, bytes: &[u8]) -> Result<SteadyStore, OutOfMemory> {
    let mut store = SteadyStore::new(alloc);
    store.put(path, bytes)?;
    Ok(store)
}

/// The snapshot of a file at a path.
pub(crate) fn read_line(alloc: Global, columns: &str) -> Result<Text, Error> {
    let (path, file) = first_column(columns);
    let path = text_of(alloc, path)?;
    let file = text_of(alloc, file)?;
    let mut store = store_of(alloc, &path, file.as_str().as_bytes())?;
    found_line(alloc, &mut store, &path)
}

/// The snapshot of a file of these bytes, which may be no text.
pub(crate) fn read_bytes_line(alloc: Global, columns: &str) -> Result<Text, Error> {
    let (path, bytes) = first_column(columns);
    let path = text_of(alloc, path)?;
    let file = bytes_of(alloc, bytes)?;
    let mut store = store_of(alloc, &path, file.as_slice())?;
    found_line(alloc, &mut store, &path)
}

/// What is read where no file is.
pub(crate) fn missing_line(alloc: Global, columns: &str) -> Result<Text, Error> {
    let path = text_of(alloc, columns)?;
    let mut store = SteadyStore::new(alloc);
    found_line(alloc, &mut store, &path)
}
