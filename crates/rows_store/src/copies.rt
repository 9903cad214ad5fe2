//! Copies and agreement.
//!
//! Contents stand in one column: `text=` and a file's text, `inline=` and an inline one, `payload=` and bytes, or `absent`.
use crate::shown::{metadata_shown, snapshot_shown};
use rows::{first_column, text_of};
use rows_snapshots::{bytes_of, metadata_of, snapshot_of};
use snap_content::{OutOfMemory, Text};
use snap_store::{MetaData, Snapshot, SnapshotContents};
use snap_text::{TextSnapshotContents, TextSnapshotKind};
use std::alloc::Global;

fn metadata_copied(alloc: Global, metadata: &MetaData) -> Result<Text, OutOfMemory> {
    let copy = metadata.try_clone(alloc)?;
    metadata_shown(alloc, &copy)
}

/// The copy of metadata. Metadata that are alive make each early return dear to prove, so each function hands them on.
pub(crate) fn metadata_line(alloc: Global, column: &str) -> Result<Text, OutOfMemory> {
    let metadata = metadata_of(alloc, column)?;
    metadata_copied(alloc, &metadata)
}

fn snapshot_copied(alloc: Global, snapshot: &Snapshot) -> Result<Text, OutOfMemory> {
    let copy = snapshot.try_clone(alloc)?;
    snapshot_shown(alloc, &copy)
}

/// The copy of a snapshot.
pub(crate) fn snapshot_line(alloc: Global, columns: &str) -> Result<Text, OutOfMemory> {
    let (snapshot, _) = snapshot_of(alloc, Text::empty(), TextSnapshotKind::File, columns)?;
    snapshot_copied(alloc, &snapshot)
}

fn text_contents(
    alloc: Global,
    held: &str,
    kind: TextSnapshotKind,
) -> Result<SnapshotContents, OutOfMemory> {
    let text = text_of(alloc, held)?;
    Ok(SnapshotContents::from_text(TextSnapshotContents::new(text, kind)))
}

/// The contents of a column.
pub(crate) fn contents_of(alloc: Global, column: &str) -> Result<SnapshotContents, OutOfMemory> {
    let (kind, held) = column.split_once('=').unwrap_or((column, ""));
    match kind {
        "text" => text_contents(alloc, held, TextSnapshotKind::File),
        "inline" => text_contents(alloc, held, TextSnapshotKind::Inline),
        "payload" => Ok(SnapshotContents::Binary(Some(bytes_of(alloc, held)?))),
        _ => Ok(SnapshotContents::Binary(None)),
    }
}

fn agree(
    alloc: Global,
    left: &SnapshotContents,
    right: &SnapshotContents,
) -> Result<Text, OutOfMemory> {
    if left.agrees(alloc, right)? {
        Text::from_ascii(alloc, "agree")
    } else {
        Text::from_ascii(alloc, "differ")
    }
}

/// What the copy of contents is, and whether it agrees with them.
pub(crate) fn contents_line(alloc: Global, column: &str) -> Result<Text, OutOfMemory> {
    let contents = contents_of(alloc, column)?;
    contents_copied(alloc, &contents)
}

fn contents_copied(alloc: Global, contents: &SnapshotContents) -> Result<Text, OutOfMemory> {
    let copy = contents.try_clone(alloc)?;
    compared_line(alloc, contents, &copy)
}

fn compared_line(
    alloc: Global,
    contents: &SnapshotContents,
    copy: &SnapshotContents,
) -> Result<Text, OutOfMemory> {
    let kind = if copy.is_binary() {
        "binary\t"
    } else {
        "text\t"
    };
    let mut line = Text::from_ascii(alloc, kind)?;
    line.push_text(alloc, &agree(alloc, contents, copy)?)?;
    Ok(line)
}

/// Whether the contents of two columns agree.
pub(crate) fn agree_line(alloc: Global, columns: &str) -> Result<Text, OutOfMemory> {
    let (left, right) = first_column(columns);
    let left = contents_of(alloc, left)?;
    agree_with(alloc, &left, right)
}

fn agree_with(alloc: Global, left: &SnapshotContents, right: &str) -> Result<Text, OutOfMemory> {
    let right = contents_of(alloc, right)?;
    agree(alloc, left, &right)
}
