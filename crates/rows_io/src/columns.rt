//! The columns of a line, and the words in a column.
use rows::{add_escaped, add_text_column};
use snap_content::{OutOfMemory, Text};
use std::alloc::Global;
use std::str;

/// The first word of a column, and what stands after the blank there.
pub(crate) fn cut_word(column: &str) -> (&str, &str) {
    column.split_once(' ').unwrap_or((column, ""))
}

/// The numbers of a column, a blank between each two.
pub(crate) fn numbers_of(alloc: Global, column: &str) -> Result<Vec<u64>, OutOfMemory> {
    let mut numbers = Vec::new(alloc);
    for digits in column.split(' ') {
        numbers.push(digits.parse::<u64>().unwrap_or(0))?;
    }
    Ok(numbers)
}

/// Adds a column with the text of these bytes after a sign, which tells it from a word.
pub(crate) fn add_bytes(alloc: Global, line: &mut Text, bytes: &[u8]) -> Result<(), OutOfMemory> {
    match str::from_utf8(bytes) {
        Ok(text) => {
            add_text_column(alloc, line, "=")?;
            add_escaped(alloc, line, text)
        }
        Err(_) => add_text_column(alloc, line, "! no text"),
    }
}
