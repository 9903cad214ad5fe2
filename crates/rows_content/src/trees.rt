//! Trees that are sorted, copied, read and written into.
use crate::columns::{add_copy, add_tree_column, add_word};
use rows::{add_text_column, tree_of_column};
use snap_content::{Content, OutOfMemory, Text};
use std::alloc::Global;
use std::mem;

/// The tree with its maps in order, and what it is when it is sorted once more.
pub(crate) fn sort_line(alloc: Global, tree: &mut Content) -> Result<Text, OutOfMemory> {
    let mut line = Text::empty();
    tree.sort_maps(alloc)?;
    add_tree_column(alloc, &mut line, tree)?;
    tree.sort_maps(alloc)?;
    add_tree_column(alloc, &mut line, tree)?;
    Ok(line)
}

/// Whether a copy is equal, and what the copy is.
pub(crate) fn copy_line(alloc: Global, tree: &Content) -> Result<Text, OutOfMemory> {
    let copy = tree.try_clone(alloc)?;
    let is_equal = copy == *tree;
    let mut line = Text::empty();
    add_copy(alloc, &mut line, is_equal, copy)?;
    Ok(line)
}

/// The text that is read of the tree, and how many items are, of which it has one at most.
pub(crate) fn read_line(alloc: Global, tree: &Content) -> Result<Text, OutOfMemory> {
    let mut line = Text::empty();
    if let Some(text) = tree.as_str() {
        add_text_column(alloc, &mut line, text)?;
    }
    if let Some(items) = tree.as_slice() {
        let word = format!(in alloc; "{} items", items.len())?;
        add_word(alloc, &mut line, word.as_str())?;
    }
    Ok(line)
}

/// The tree, where that of the column is written inside its wrappers.
pub(crate) fn inside_line(
    alloc: Global,
    tree: &mut Content,
    column: &str,
) -> Result<Text, anyhow::Error> {
    let inner = tree_of_column(alloc, column)?;
    drop(mem::replace(tree.resolve_inner_mut(), inner));
    let mut line = Text::empty();
    add_tree_column(alloc, &mut line, tree)?;
    Ok(line)
}
