//! The trees of lines, and how long their texts are.
use rows::text_of;
use snap_content::{Content, Error, OutOfMemory, Text};
use snap_emit::{parse_str, to_string};
use std::alloc::Global;

/// The tree of a line's text, if it has one.
fn tree_of(alloc: Global, line: &str) -> Result<Option<Content>, OutOfMemory> {
    let text = text_of(alloc, line)?;
    match parse_str(alloc, text.as_str(), &Text::empty()) {
        Ok(tree) => Ok(Some(tree)),
        Err(Error::OutOfMemory) => Err(OutOfMemory),
        Err(_) => Ok(None),
    }
}

/// The trees of the lines. A line whose text has no tree is passed over.
pub(crate) fn trees_of(alloc: Global, lines: &str) -> Result<Vec<Content>, OutOfMemory> {
    let mut trees = Vec::new(alloc);
    for line in lines.lines() {
        if let Some(tree) = tree_of(alloc, line)? {
            trees.push(tree)?;
        }
    }
    Ok(trees)
}

/// How many bytes the texts of the trees have.
pub(crate) fn printed_bytes(alloc: Global, trees: &[Content]) -> Result<u64, OutOfMemory> {
    let mut bytes: u64 = 0;
    for tree in trees {
        let text = to_string(alloc, tree, false)?;
        bytes = bytes.saturating_add(text.as_str().len() as u64);
    }
    Ok(bytes)
}
