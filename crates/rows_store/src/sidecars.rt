//! Snapshots of payloads, which are saved with a file beside theirs, and read back.
//!
//! The calls of a store that fail stand in one column as their numbers, with a blank between each two. A file beside another stands in
//! one column as `PATH=` and its bytes; an empty column has none.
use crate::copies::contents_of;
use crate::reading::found_line;
use crate::shown::{add_payload, refusal};
use rows::{add_escaped, add_file, first_column, text_of};
use rows_snapshots::{bytes_of, metadata_of};
use snap_content::{Error, OutOfMemory, Text};
use snap_io::MemoryStore;
use snap_store::{MetaData, Snapshot, named};
use std::alloc::Global;

/// A store of which these calls fail.
fn store_of(alloc: Global, column: &str) -> Result<MemoryStore, OutOfMemory> {
    let mut calls = Vec::new(alloc);
    for digits in column.split_whitespace() {
        calls.push(digits.parse::<u64>().unwrap_or(0))?;
    }
    let mut store = MemoryStore::new(alloc);
    store.fail_at(calls);
    Ok(store)
}

/// The snapshot without a name that has these metadata and these contents.
fn snapshot_of(alloc: Global, metadata: &str, contents: &str) -> Result<Snapshot, OutOfMemory> {
    let contents = contents_of(alloc, contents)?;
    let metadata = metadata_of(alloc, metadata)?;
    Ok(Snapshot::from_components(Text::empty(), None, metadata, contents))
}

/// Adds the file beside the one at the path, where the metadata tell of one.
fn add_beside(
    alloc: Global,
    line: &mut Text,
    store: &MemoryStore,
    path: &Text,
    snapshot: &Snapshot,
) -> Result<(), OutOfMemory> {
    let Some(beside) = snapshot.build_binary_path(alloc, path)? else {
        return line.push_ascii(alloc, "no path");
    };
    match store.get(&beside) {
        Some(bytes) => add_payload(alloc, line, bytes),
        None => line.push_ascii(alloc, "no file"),
    }
}

/// How many files there are, the file at the path, and the one beside it.
fn add_files(
    alloc: Global,
    line: &mut Text,
    store: &MemoryStore,
    path: &Text,
    snapshot: &Snapshot,
) -> Result<(), OutOfMemory> {
    let counted = format!(in alloc; "\t{}\t", store.len())?;
    line.push_str(alloc, counted.as_str())?;
    add_file(alloc, line, store.get(path))?;
    line.push_ascii(alloc, "\t")?;
    add_beside(alloc, line, store, path, snapshot)
}

/// How the saving ended.
fn end_of(alloc: Global, end: Result<(), Error>) -> Result<Text, OutOfMemory> {
    match end {
        Ok(()) => Text::from_ascii(alloc, "saved"),
        Err(error) => refusal(alloc, &error),
    }
}

fn put(
    alloc: Global,
    store: &mut MemoryStore,
    path: &Text,
    snapshot: &Snapshot,
) -> Result<Text, OutOfMemory> {
    let mut line = end_of(alloc, snapshot.save(alloc, store, path))?;
    add_files(alloc, &mut line, store, path, snapshot)?;
    Ok(line)
}

/// The files of a snapshot that is saved.
pub(crate) fn put_line(alloc: Global, columns: &str) -> Result<Text, Error> {
    let (path, columns) = first_column(columns);
    let (metadata, columns) = first_column(columns);
    let (contents, calls) = first_column(columns);
    let path = text_of(alloc, path)?;
    let mut store = store_of(alloc, calls)?;
    let snapshot = snapshot_of(alloc, metadata, contents)?;
    let line = put(alloc, &mut store, &path, &snapshot);
    drop(snapshot);
    Ok(line?)
}

/// How the saving beside the path ended, and the path that it gave.
fn new_end_of(alloc: Global, end: Result<Text, Error>) -> Result<Text, OutOfMemory> {
    match end {
        Ok(pending) => {
            let mut told = Text::from_ascii(alloc, "saved ")?;
            add_escaped(alloc, &mut told, pending.as_str())?;
            Ok(told)
        }
        Err(error) => refusal(alloc, &error),
    }
}

fn put_new(
    alloc: Global,
    store: &mut MemoryStore,
    path: &Text,
    snapshot: &Snapshot,
) -> Result<Text, OutOfMemory> {
    let mut pending = path.try_clone(alloc)?;
    pending.push_ascii(alloc, ".new")?;
    let mut line = new_end_of(alloc, snapshot.save_new(alloc, store, path))?;
    add_files(alloc, &mut line, store, &pending, snapshot)?;
    Ok(line)
}

/// The files in which a snapshot waits for a review.
pub(crate) fn put_new_line(alloc: Global, columns: &str) -> Result<Text, Error> {
    let (path, columns) = first_column(columns);
    let (metadata, columns) = first_column(columns);
    let (contents, calls) = first_column(columns);
    let path = text_of(alloc, path)?;
    let mut store = store_of(alloc, calls)?;
    let snapshot = snapshot_of(alloc, metadata, contents)?;
    let line = put_new(alloc, &mut store, &path, &snapshot);
    drop(snapshot);
    Ok(line?)
}

/// Puts the file of a column into the store.
fn put_sidecar(alloc: Global, store: &mut MemoryStore, column: &str) -> Result<(), OutOfMemory> {
    if let Some((path, bytes)) = column.split_once('=') {
        let path = text_of(alloc, path)?;
        store.put(&path, bytes_of(alloc, bytes)?.as_slice())?;
    }
    Ok(())
}

/// The snapshot of a file with another beside it.
pub(crate) fn beside_line(alloc: Global, columns: &str) -> Result<Text, Error> {
    let (path, columns) = first_column(columns);
    let (file, columns) = first_column(columns);
    let (sidecar, calls) = first_column(columns);
    let path = text_of(alloc, path)?;
    let file = text_of(alloc, file)?;
    let mut store = store_of(alloc, calls)?;
    store.put(&path, file.as_str().as_bytes())?;
    put_sidecar(alloc, &mut store, sidecar)?;
    found_line(alloc, &mut store, &path)
}

/// A store with the files of a snapshot that was saved, and the path of its payload.
fn saved_in(
    alloc: Global,
    store: &mut MemoryStore,
    path: &Text,
    snapshot: &Snapshot,
) -> Result<Option<Text>, Error> {
    snapshot.save(alloc, store, path)?;
    Ok(snapshot.build_binary_path(alloc, path)?)
}

fn saved_of(
    alloc: Global,
    store: &mut MemoryStore,
    path: &Text,
    columns: &str,
) -> Result<Option<Text>, Error> {
    let (metadata, contents) = first_column(columns);
    let snapshot = snapshot_of(alloc, metadata, contents)?;
    let beside = saved_in(alloc, store, path, &snapshot);
    drop(snapshot);
    beside
}

/// What is read of a snapshot that was saved.
pub(crate) fn back_line(alloc: Global, columns: &str) -> Result<Text, Error> {
    let (path, columns) = first_column(columns);
    let path = text_of(alloc, path)?;
    let mut store = MemoryStore::new(alloc);
    saved_of(alloc, &mut store, &path, columns)?;
    found_line(alloc, &mut store, &path)
}

/// What is read of a snapshot that was saved, after its payload was taken away.
pub(crate) fn taken_line(alloc: Global, columns: &str) -> Result<Text, Error> {
    let (path, columns) = first_column(columns);
    let path = text_of(alloc, path)?;
    let mut store = MemoryStore::new(alloc);
    if let Some(beside) = saved_of(alloc, &mut store, &path, columns)? {
        named::remove(alloc, &mut store, &beside)?;
    }
    found_line(alloc, &mut store, &path)
}

fn binary_path(alloc: Global, path: &Text, metadata: &MetaData) -> Result<Text, OutOfMemory> {
    let mut line = Text::empty();
    match metadata.build_binary_path(alloc, path)? {
        Some(beside) => add_escaped(alloc, &mut line, beside.as_str())?,
        None => line.push_ascii(alloc, "no path")?,
    }
    Ok(line)
}

/// Where the payload stands.
pub(crate) fn binary_path_line(alloc: Global, columns: &str) -> Result<Text, OutOfMemory> {
    let (path, metadata) = first_column(columns);
    let path = text_of(alloc, path)?;
    let metadata = metadata_of(alloc, metadata)?;
    let line = binary_path(alloc, &path, &metadata);
    drop(metadata);
    line
}
