//! Trees and words in the columns of a line.
use rows::{add_column, tree_of_column};
use snap_content::{Content, Items, OutOfMemory, Text};
use std::alloc::Global;

/// The trees of the columns.
pub(crate) fn trees_of(alloc: Global, columns: &str) -> Result<Items, anyhow::Error> {
    let mut trees = Items::new(alloc);
    for column in columns.split('\t') {
        push_tree(alloc, &mut trees, column)?;
    }
    Ok(trees)
}

fn push_tree(alloc: Global, trees: &mut Items, column: &str) -> Result<(), anyhow::Error> {
    let tree = tree_of_column(alloc, column)?;
    Ok(trees.push(tree)?)
}

/// Adds a column with this word, after a tab where it is not the first.
pub(crate) fn add_word(alloc: Global, line: &mut Text, word: &str) -> Result<(), OutOfMemory> {
    if !line.as_str().is_empty() {
        line.push_ascii(alloc, "\t")?;
    }
    line.push_str(alloc, word)
}

/// Adds a column with this tree.
pub(crate) fn add_tree_column(
    alloc: Global,
    line: &mut Text,
    tree: &Content,
) -> Result<(), OutOfMemory> {
    add_word(alloc, line, "")?;
    add_column(alloc, line, tree)
}

/// Whether two values are equal, in a word.
pub(crate) fn equal_or_not(is_equal: bool) -> &'static str {
    if is_equal { "equal" } else { "unequal" }
}

/// Adds whether a copy is equal, and what the copy is, which ends here.
pub(crate) fn add_copy(
    alloc: Global,
    line: &mut Text,
    is_equal: bool,
    copy: Content,
) -> Result<(), OutOfMemory> {
    let added = add_compared(alloc, line, is_equal, &copy);
    drop(copy);
    added
}

fn add_compared(
    alloc: Global,
    line: &mut Text,
    is_equal: bool,
    copy: &Content,
) -> Result<(), OutOfMemory> {
    add_word(alloc, line, equal_or_not(is_equal))?;
    add_tree_column(alloc, line, copy)
}

/// The line of one column with a tree, which ends here. A tree that is alive at an early return makes that dear to prove, so trees are
/// handed on to where they end, which is a call of `drop`.
pub(crate) fn line_of_tree(alloc: Global, tree: Content) -> Result<Text, OutOfMemory> {
    let line = tree_line(alloc, &tree);
    drop(tree);
    line
}

fn tree_line(alloc: Global, tree: &Content) -> Result<Text, OutOfMemory> {
    let mut line = Text::empty();
    add_tree_column(alloc, &mut line, tree)?;
    Ok(line)
}
