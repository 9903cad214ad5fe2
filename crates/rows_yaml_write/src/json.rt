//! Trees as JSON, in each layout.
use rows::{LineError, add_escaped, tree_of_line};
use snap_content::{Content, OutOfMemory, Text};
use snap_json::{JsonError, to_string, to_string_compact, to_string_pretty};
use std::alloc::Global;

/// Adds a text as it stands on a line, or why there is none.
fn add_text(
    alloc: Global,
    told: &mut Text,
    text: Result<Text, JsonError>,
) -> Result<(), OutOfMemory> {
    match text {
        Ok(text) => add_escaped(alloc, told, text.as_str()),
        Err(JsonError::OutOfMemory) => Err(OutOfMemory),
        Err(error) => {
            let why = format!(in alloc; "! {error}")?;
            told.push_str(alloc, why.as_str())
        }
    }
}

/// The lines of a tree, without the last line's end.
fn lines_of(alloc: Global, tree: &Content) -> Result<Text, OutOfMemory> {
    let mut told = Text::empty();
    add_text(alloc, &mut told, to_string(alloc, tree))?;
    told.push_ascii(alloc, "\n")?;
    add_text(alloc, &mut told, to_string_compact(alloc, tree))?;
    told.push_ascii(alloc, "\n")?;
    add_text(alloc, &mut told, to_string_pretty(alloc, tree))?;
    Ok(told)
}

/// The lines of the tree that stands in the columns.
pub(crate) fn json_lines(alloc: Global, columns: &str) -> Result<Text, OutOfMemory> {
    match tree_of_line(alloc, columns) {
        Ok(tree) => lines_of(alloc, &tree),
        Err(LineError::NoTree) => Ok(Text::empty()),
        Err(LineError::OutOfMemory) => Err(OutOfMemory),
    }
}
