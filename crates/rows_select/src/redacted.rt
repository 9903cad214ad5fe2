//! Trees that are redacted.
//! A case is columns: how the answer is laid out, a tree, and then for each redaction, one after the other, the text of its selector
//! and what comes there in place of a value, as `replacements` reads it. The layouts are `tree`, the words of a tree as they are in a
//! column, and `json`, its condensed text.
use crate::redactions::redact_each;
use rows::{add_column, add_escaped, first_column, tree_of_column};
use snap_content::{Content, Text};
use snap_json::to_string;
use std::alloc::Global;

/// The condensed text of a tree, as it stands on a line.
fn json_line(alloc: Global, tree: &Content) -> Result<Text, anyhow::Error> {
    let text = to_string(alloc, tree)?;
    let mut line = Text::empty();
    add_escaped(alloc, &mut line, text.as_str())?;
    Ok(line)
}

/// A tree in a layout.
fn laid_out(alloc: Global, layout: &str, tree: &Content) -> Result<Text, anyhow::Error> {
    match layout {
        "json" => json_line(alloc, tree),
        _ => tree_line(alloc, tree),
    }
}

fn tree_line(alloc: Global, tree: &Content) -> Result<Text, anyhow::Error> {
    let mut line = Text::empty();
    add_column(alloc, &mut line, tree)?;
    Ok(line)
}

/// The tree of a case, once it is redacted.
pub(crate) fn redacted(alloc: Global, line: &str) -> Result<Text, anyhow::Error> {
    let (layout, columns) = first_column(line);
    let (first, others) = first_column(columns);
    let mut tree = tree_of_column(alloc, first)?;
    redacted_with(alloc, layout, &mut tree, others)
}

/// The same with a tree that is lent: where it is alive at an early return, that is dear to prove.
fn redacted_with(
    alloc: Global,
    layout: &str,
    tree: &mut Content,
    redactions: &str,
) -> Result<Text, anyhow::Error> {
    redact_each(alloc, tree, redactions)?;
    laid_out(alloc, layout, tree)
}
