//! Literals that inline texts are written as.
use crate::contents::contents_of;
use rows::add_escaped;
use snap_content::{OutOfMemory, Text};
use snap_text::{TextSnapshotContents, TextSnapshotKind, read_literal};
use std::alloc::Global;

/// The literal of an inline text, and whether contents that are read of it match the text.
pub(crate) fn literal_line(alloc: Global, column: &str) -> Result<Text, anyhow::Error> {
    let given = contents_of(alloc, "inline", column)?;
    let literal = given.to_inline(alloc, "    ")?;
    let made = read_back(alloc, literal.as_str())?;
    Ok(matched_line(alloc, literal.as_str(), &given, &made)?)
}

/// The contents that are read of a literal.
fn read_back(alloc: Global, literal: &str) -> Result<TextSnapshotContents, anyhow::Error> {
    let text = read_literal(alloc, literal)?;
    Ok(TextSnapshotContents::from_inline_literal(alloc, text.as_str())?)
}

fn matched_line(
    alloc: Global,
    literal: &str,
    given: &TextSnapshotContents,
    made: &TextSnapshotContents,
) -> Result<Text, OutOfMemory> {
    let mut line = Text::empty();
    add_escaped(alloc, &mut line, literal)?;
    let is_inline = made.kind() == TextSnapshotKind::Inline;
    if is_inline && made.matches_latest(alloc, given)? {
        line.push_ascii(alloc, "\tmatches")?;
    }
    Ok(line)
}
