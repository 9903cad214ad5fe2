//! What is asked of the texts of snapshots.
use rows::{add_escaped, first_column, text_of};
use snap_content::{OutOfMemory, Text};
use snap_text::{TextSnapshotContents, TextSnapshotKind};
use std::alloc::Global;

fn kind_named(name: &str) -> TextSnapshotKind {
    if name == "inline" {
        TextSnapshotKind::Inline
    } else {
        TextSnapshotKind::File
    }
}

fn kind_name(kind: TextSnapshotKind) -> &'static str {
    match kind {
        TextSnapshotKind::Inline => "inline",
        TextSnapshotKind::File => "file",
    }
}

/// The contents of this kind that stand in a column.
pub(crate) fn contents_of(
    alloc: Global,
    kind: &str,
    column: &str,
) -> Result<TextSnapshotContents, OutOfMemory> {
    let text = text_of(alloc, column)?;
    Ok(TextSnapshotContents::new(text, kind_named(kind)))
}

/// The normal form, what is written of the text, and the text as it was given.
pub(crate) fn form_line(alloc: Global, columns: &str) -> Result<Text, OutOfMemory> {
    let (kind, column) = first_column(columns);
    let given = contents_of(alloc, kind, column)?;
    let mut line = Text::empty();
    add_forms(alloc, &mut line, &given)?;
    line.push_ascii(alloc, "\t")?;
    add_escaped(alloc, &mut line, given.as_raw())?;
    Ok(line)
}

/// Adds the normal form, and what is written of the text.
fn add_forms(
    alloc: Global,
    line: &mut Text,
    given: &TextSnapshotContents,
) -> Result<(), OutOfMemory> {
    let normal = given.normal(alloc)?;
    add_escaped(alloc, line, normal.as_str())?;
    line.push_ascii(alloc, "\t")?;
    let written = format!(in alloc; "{given}")?;
    add_escaped(alloc, line, written.as_str())
}

/// Whether two texts match in the way of that name.
pub(crate) fn match_line(alloc: Global, name: &str, columns: &str) -> Result<Text, OutOfMemory> {
    let (kind, rest) = first_column(columns);
    let (column, others) = first_column(rest);
    let (other_kind, other_column) = first_column(others);
    let given = contents_of(alloc, kind, column)?;
    let other = contents_of(alloc, other_kind, other_column)?;
    let word = if is_match(alloc, name, &given, &other)? {
        "yes"
    } else {
        "no"
    };
    Text::from_ascii(alloc, word)
}

fn is_match(
    alloc: Global,
    name: &str,
    given: &TextSnapshotContents,
    other: &TextSnapshotContents,
) -> Result<bool, OutOfMemory> {
    match name {
        "latest" => given.matches_latest(alloc, other),
        "legacy" => given.matches_legacy(alloc, other),
        _ => Ok(given.matches_fully(other)),
    }
}

/// Whether a copy is equal, and its kind and text.
pub(crate) fn copy_line(alloc: Global, columns: &str) -> Result<Text, OutOfMemory> {
    let (kind, column) = first_column(columns);
    let given = contents_of(alloc, kind, column)?;
    let copy = given.try_clone(alloc)?;
    copied_line(alloc, copy == given, &copy)
}

fn copied_line(
    alloc: Global,
    is_equal: bool,
    copy: &TextSnapshotContents,
) -> Result<Text, OutOfMemory> {
    let word = if is_equal { "equal" } else { "unequal" };
    let front = format!(in alloc; "{word}\t{}\t", kind_name(copy.kind()))?;
    let mut line = Text::from_str(alloc, front.as_str())?;
    add_escaped(alloc, &mut line, copy.as_raw())?;
    Ok(line)
}
