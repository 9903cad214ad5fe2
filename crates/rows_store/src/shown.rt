//! How metadata, snapshots and refusals stand on a line.
use rows::add_escaped;
use snap_content::{Content, Error, OutOfMemory, Text};
use snap_store::{MetaData, Snapshot, SnapshotContents, SnapshotKind};
use std::alloc::Global;
use std::fmt::Display;

/// Why there is no answer. After out of memory there is no line.
pub(crate) fn refusal(alloc: Global, error: &Error) -> Result<Text, OutOfMemory> {
    if matches!(error, Error::OutOfMemory) {
        return Err(OutOfMemory);
    }
    let told = format!(in alloc; "! {error}")?;
    Text::from_str(alloc, told.as_str())
}

/// Adds the fields that are shown, each with a tab after it, and what the contents are.
pub(crate) fn add_metadata(
    alloc: Global,
    line: &mut Text,
    metadata: &MetaData,
) -> Result<(), OutOfMemory> {
    add_field(alloc, line, "source", metadata.source())?;
    if let Some(number) = metadata.assertion_line() {
        add_number(alloc, line, "assertion_line=", &number)?;
        line.push_ascii(alloc, "\t")?;
    }
    add_field(alloc, line, "description", metadata.description())?;
    add_field(alloc, line, "expression", metadata.expression())?;
    add_rest(alloc, line, metadata)
}

fn add_rest(alloc: Global, line: &mut Text, metadata: &MetaData) -> Result<(), OutOfMemory> {
    if let Some(info) = metadata.private_info() {
        line.push_ascii(alloc, "info=")?;
        add_tree(alloc, line, info)?;
        line.push_ascii(alloc, "\t")?;
    }
    add_field(alloc, line, "input_file", metadata.input_file())?;
    add_kind(alloc, line, metadata.kind())
}

fn add_field(
    alloc: Global,
    line: &mut Text,
    name: &str,
    value: Option<&str>,
) -> Result<(), OutOfMemory> {
    let Some(text) = value else {
        return Ok(());
    };
    line.push_str(alloc, name)?;
    line.push_ascii(alloc, "=")?;
    add_escaped(alloc, line, text)?;
    line.push_ascii(alloc, "\t")
}

fn add_kind(alloc: Global, line: &mut Text, kind: &SnapshotKind) -> Result<(), OutOfMemory> {
    if kind == &SnapshotKind::Text {
        return line.push_ascii(alloc, "text");
    }
    line.push_ascii(alloc, "binary")?;
    if let SnapshotKind::Binary { extension } = kind {
        line.push_ascii(alloc, " ")?;
        add_escaped(alloc, line, extension.as_str())?;
    }
    Ok(())
}

/// Adds a number after its word.
fn add_number(
    alloc: Global,
    line: &mut Text,
    word: &str,
    number: &impl Display,
) -> Result<(), OutOfMemory> {
    let told = format!(in alloc; "{word}{number}")?;
    line.push_str(alloc, told.as_str())
}

/// Adds the word of a tree, as `rows_snapshots` reads it; `?` for a tree of which it has none.
pub(crate) fn add_tree(alloc: Global, line: &mut Text, tree: &Content) -> Result<(), OutOfMemory> {
    match tree {
        Content::String(text) => {
            line.push_ascii(alloc, "String ")?;
            add_escaped(alloc, line, text.as_str())
        }
        Content::U8(number) => add_number(alloc, line, "U8 ", number),
        Content::U32(number) => add_number(alloc, line, "U32 ", number),
        Content::I64(number) => add_number(alloc, line, "I64 ", number),
        _ => line.push_ascii(alloc, "?"),
    }
}

/// Adds whether the snapshot's file had a header, its names, its metadata, and its text or its payload.
fn add_snapshot(alloc: Global, line: &mut Text, snapshot: &Snapshot) -> Result<(), OutOfMemory> {
    if snapshot.was_legacy() {
        line.push_ascii(alloc, "legacy\t")?;
    }
    add_field(alloc, line, "module", Some(snapshot.module_name()))?;
    add_field(alloc, line, "name", snapshot.snapshot_name())?;
    add_metadata(alloc, line, snapshot.metadata())?;
    line.push_ascii(alloc, "\t")?;
    match snapshot.contents() {
        SnapshotContents::Text(text) => add_escaped(alloc, line, text.as_raw()),
        SnapshotContents::Binary(None) => line.push_ascii(alloc, "no payload"),
        SnapshotContents::Binary(Some(payload)) => add_payload(alloc, line, payload.as_slice()),
    }
}

/// Adds the bytes of a payload, each after a blank.
pub(crate) fn add_payload(alloc: Global, line: &mut Text, bytes: &[u8]) -> Result<(), OutOfMemory> {
    line.push_ascii(alloc, "payload")?;
    for byte in bytes {
        add_number(alloc, line, " ", byte)?;
    }
    Ok(())
}

/// What metadata tell.
pub(crate) fn metadata_shown(alloc: Global, metadata: &MetaData) -> Result<Text, OutOfMemory> {
    let mut line = Text::empty();
    add_metadata(alloc, &mut line, metadata)?;
    Ok(line)
}

/// The same of metadata that end here.
pub(crate) fn metadata_into_line(alloc: Global, metadata: MetaData) -> Result<Text, OutOfMemory> {
    let line = metadata_shown(alloc, &metadata);
    drop(metadata);
    line
}

/// What a snapshot tells.
pub(crate) fn snapshot_shown(alloc: Global, snapshot: &Snapshot) -> Result<Text, OutOfMemory> {
    let mut line = Text::empty();
    add_snapshot(alloc, &mut line, snapshot)?;
    Ok(line)
}

/// The same of a snapshot that ends here.
pub(crate) fn snapshot_into_line(alloc: Global, snapshot: Snapshot) -> Result<Text, OutOfMemory> {
    let line = snapshot_shown(alloc, &snapshot);
    drop(snapshot);
    line
}
