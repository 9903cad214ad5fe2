//! Records with snapshots, and batches.
use rows::{first_column, text_of};
use rows_snapshots::snapshot_of;
use snap_content::{Error, OutOfMemory, Text};
use snap_io::MemoryStore;
use snap_pending::PendingInlineSnapshot;
use snap_store::Snapshot;
use snap_text::TextSnapshotKind;
use std::alloc::Global;

/// The snapshot of the first columns, in the module `m`; none where there are no more columns.
fn next_snapshot(alloc: Global, columns: &str) -> Result<(Option<Snapshot>, &str), OutOfMemory> {
    if columns.is_empty() {
        return Ok((None, columns));
    }
    let module = Text::from_ascii(alloc, "m")?;
    let (snapshot, rest) = snapshot_of(alloc, module, TextSnapshotKind::Inline, columns)?;
    Ok((Some(snapshot), rest))
}

/// The record of a run at a line, with the new snapshot and the old one.
fn record_of(alloc: Global, columns: &str) -> Result<PendingInlineSnapshot, OutOfMemory> {
    let (run, columns) = first_column(columns);
    let (line, columns) = first_column(columns);
    let run = text_of(alloc, run)?;
    let line = line.parse::<u32>().unwrap_or(0);
    let (new, columns) = next_snapshot(alloc, columns)?;
    let (old, _) = next_snapshot(alloc, columns)?;
    Ok(PendingInlineSnapshot::new(run, new, old, line))
}

/// Adds a record to the file.
pub(crate) fn saved(
    alloc: Global,
    store: &mut MemoryStore,
    path: &Text,
    columns: &str,
) -> Result<(), Error> {
    let pending = record_of(alloc, columns)?;
    pending.save(alloc, store, path)
}

/// Loads the batch of a file of this text, and saves it there again.
pub(crate) fn saved_again(
    alloc: Global,
    store: &mut MemoryStore,
    path: &Text,
    column: &str,
) -> Result<(), Error> {
    let file = text_of(alloc, column)?;
    store.put(path, file.as_str().as_bytes())?;
    let batch = PendingInlineSnapshot::load_batch(alloc, store, path)?;
    PendingInlineSnapshot::save_batch(alloc, store, path, batch.as_slice())
}
