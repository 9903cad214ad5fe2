//! Snapshots that are saved.
use rows::{add_escaped, add_file, first_column, text_of};
use rows_snapshots::snapshot_of;
use snap_content::{Error, OutOfMemory, Text};
use snap_io::SteadyStore;
use snap_store::Snapshot;
use snap_text::TextSnapshotKind;
use std::alloc::Global;

/// The path of a file, how many files the store has, and that file's text.
fn stored_line(alloc: Global, store: &SteadyStore, path: &Text) -> Result<Text, OutOfMemory> {
    let mut line = Text::empty();
    add_escaped(alloc, &mut line, path.as_str())?;
    let counted = format!(in alloc; "\t{}\t", store.len())?;
    line.push_str(alloc, counted.as_str())?;
    add_file(alloc, &mut line, store.get(path))?;
    Ok(line)
}

fn saved(alloc: Global, path: &Text, snapshot: &Snapshot) -> Result<Text, Error> {
    let mut store = SteadyStore::new(alloc);
    saved_in(alloc, &mut store, path, snapshot)
}

fn saved_in(
    alloc: Global,
    store: &mut SteadyStore,
    path: &Text,
    snapshot: &Snapshot,
) -> Result<Text, Error> {
    snapshot.save(alloc, store, path)?;
    Ok(stored_line(alloc, store, path)?)
}

/// The file of a snapshot that is saved.
pub(crate) fn save_line(alloc: Global, columns: &str) -> Result<Text, Error> {
    let (path, columns) = first_column(columns);
    let path = text_of(alloc, path)?;
    let (snapshot, _) = snapshot_of(alloc, Text::empty(), TextSnapshotKind::File, columns)?;
    saved(alloc, &path, &snapshot)
}

fn saved_new(alloc: Global, path: &Text, snapshot: &Snapshot) -> Result<Text, Error> {
    let mut store = SteadyStore::new(alloc);
    saved_new_in(alloc, &mut store, path, snapshot)
}

fn saved_new_in(
    alloc: Global,
    store: &mut SteadyStore,
    path: &Text,
    snapshot: &Snapshot,
) -> Result<Text, Error> {
    let pending = snapshot.save_new(alloc, store, path)?;
    Ok(stored_line(alloc, store, &pending)?)
}

/// The file in which a snapshot waits for a review.
pub(crate) fn save_new_line(alloc: Global, columns: &str) -> Result<Text, Error> {
    let (path, columns) = first_column(columns);
    let path = text_of(alloc, path)?;
    let (snapshot, _) = snapshot_of(alloc, Text::empty(), TextSnapshotKind::File, columns)?;
    saved_new(alloc, &path, &snapshot)
}
