//! The columns of a line, a tab between each two.
use crate::lines::add_escaped;
use snap_content::{OutOfMemory, Text};
use std::alloc::Global;
use std::str;

/// The first column, and those after it.
pub fn first_column(columns: &str) -> (&str, &str) {
    columns.split_once('\t').unwrap_or((columns, ""))
}

/// Adds a column with this text, after a tab where it is not the first.
pub fn add_text_column(alloc: Global, line: &mut Text, text: &str) -> Result<(), OutOfMemory> {
    if !line.as_str().is_empty() {
        line.push_ascii(alloc, "\t")?;
    }
    add_escaped(alloc, line, text)
}

/// Adds a column with a number after a word.
pub fn add_number_column(
    alloc: Global,
    line: &mut Text,
    word: &str,
    number: u64,
) -> Result<(), OutOfMemory> {
    let told = format!(in alloc; "{word} {number}")?;
    add_text_column(alloc, line, told.as_str())
}

/// Adds the text of a file's bytes, or that there is no file or no text.
pub fn add_file(alloc: Global, line: &mut Text, file: Option<&[u8]>) -> Result<(), OutOfMemory> {
    let Some(bytes) = file else {
        return line.push_ascii(alloc, "no file");
    };
    match str::from_utf8(bytes) {
        Ok(text) => add_escaped(alloc, line, text),
        Err(_) => line.push_ascii(alloc, "no text"),
    }
}
