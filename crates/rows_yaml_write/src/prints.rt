//! What is printed of trees: of one that stands on the line, and of one that a text is read as.
use crate::refusals::refusal_line;
use rows::{LineError, add_escaped, tree_of_line};
use snap_content::{Content, OutOfMemory, Text};
use snap_emit::{parse_str, to_string};
use std::alloc::Global;

/// What is printed of the tree of which these are the words, with literal blocks or without.
pub(crate) fn tree_line(alloc: Global, words: &str, literal: bool) -> Result<Text, OutOfMemory> {
    match tree_of_line(alloc, words) {
        Ok(tree) => printed_line(alloc, tree, literal),
        Err(LineError::NoTree) => Text::from_ascii(alloc, "! NoTree"),
        Err(LineError::OutOfMemory) => Err(OutOfMemory),
    }
}

/// What is printed of a tree, which ends in a call: a tree that is alive at an early return makes that dear to prove.
fn printed_line(alloc: Global, tree: Content, literal: bool) -> Result<Text, OutOfMemory> {
    let line = line_of_tree(alloc, &tree, literal);
    drop(tree);
    line
}

fn line_of_tree(alloc: Global, tree: &Content, literal: bool) -> Result<Text, OutOfMemory> {
    let mut line = Text::empty();
    add_printed(alloc, &mut line, tree, literal)?;
    Ok(line)
}

/// What is printed of the tree that a text is read as, or why it is refused.
pub(crate) fn read_line(alloc: Global, text: &str, literal: bool) -> Result<Text, OutOfMemory> {
    let path = Text::from_str(alloc, "a.snap")?;
    match parse_str(alloc, text, &path) {
        Ok(tree) => printed_line(alloc, tree, literal),
        Err(error) => refusal_line(alloc, &error),
    }
}

/// Adds what is printed of a tree.
pub(crate) fn add_printed(
    alloc: Global,
    line: &mut Text,
    tree: &Content,
    literal: bool,
) -> Result<(), OutOfMemory> {
    let printed = to_string(alloc, tree, literal)?;
    add_escaped(alloc, line, printed.as_str())
}
