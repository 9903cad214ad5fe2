//! Words and bytes in columns.
use rows::{add_text_column, text_of};
use snap_content::{Blob, OutOfMemory, Text};
use std::alloc::Global;
use std::str;

/// The words that stand in a column, with this between each two; an empty column has none.
pub fn words_of(alloc: Global, column: &str, between: char) -> Result<Vec<Text>, OutOfMemory> {
    let mut words = Vec::new(alloc);
    if column.is_empty() {
        return Ok(words);
    }
    for word in column.split(between) {
        words.push(text_of(alloc, word)?)?;
    }
    Ok(words)
}

/// The bytes that stand in a column: those of its text, or after `bytes ` the numbers of each, with a blank between each two.
pub fn input_of(alloc: Global, column: &str) -> Result<Blob, OutOfMemory> {
    match column.strip_prefix("bytes ") {
        Some(numbers) => bytes_of(alloc, numbers),
        None => {
            let text = text_of(alloc, column)?;
            Blob::from_slice(alloc, text.as_str().as_bytes())
        }
    }
}

/// The bytes of numbers, a blank between each two.
fn bytes_of(alloc: Global, numbers: &str) -> Result<Blob, OutOfMemory> {
    let mut bytes = Vec::new(alloc);
    for digits in numbers.split(' ') {
        bytes.push(digits.parse::<u8>().unwrap_or(0))?;
    }
    Blob::from_slice(alloc, bytes.as_slice())
}

/// Adds a column with the text of these bytes.
pub fn add_bytes(alloc: Global, line: &mut Text, bytes: &[u8]) -> Result<(), OutOfMemory> {
    match str::from_utf8(bytes) {
        Ok(text) => add_text_column(alloc, line, text),
        Err(_) => add_text_column(alloc, line, "! no text"),
    }
}
