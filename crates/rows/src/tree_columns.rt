//! Trees in one column of a line: the words of `trees`, with `\t` for the tab between each two.
use crate::error::LineError;
use crate::lines::{add_escaped, text_of};
use crate::trees::tree_of_line;
use crate::written::add_tree;
use snap_content::{Content, OutOfMemory, Text};
use std::alloc::Global;

/// The tree that a column stands for.
pub fn tree_of_column(alloc: Global, column: &str) -> Result<Content, LineError> {
    let words = text_of(alloc, column)?;
    tree_of_line(alloc, words.as_str())
}

/// Adds a tree as it stands in a column.
pub fn add_column(alloc: Global, line: &mut Text, tree: &Content) -> Result<(), OutOfMemory> {
    let mut words = Text::empty();
    add_tree(alloc, &mut words, tree)?;
    add_escaped(alloc, line, words.as_str())
}
