//! What the public calls give that print trees and read texts.
use crate::headers::header_line;
use crate::prints::{read_line, tree_line};
use rows::{first_column, text_of};
use snap_content::{OutOfMemory, Text};
use snap_emit::need_quotes;
use std::alloc::Global;

/// The answer to a call that is given a text.
fn text_call(alloc: Global, call: &str, text: &str) -> Result<Text, OutOfMemory> {
    match call {
        "read" => read_line(alloc, text, false),
        "literal read" => read_line(alloc, text, true),
        "header" => header_line(alloc, text),
        "quotes" => quotes_line(alloc, text),
        _ => Text::from_str(alloc, "! NoCall"),
    }
}

/// Whether the text needs quotes.
fn quotes_line(alloc: Global, text: &str) -> Result<Text, OutOfMemory> {
    let answer = if need_quotes(text) { "true" } else { "false" };
    Text::from_str(alloc, answer)
}

fn text_line(alloc: Global, call: &str, given: &str) -> Result<Text, OutOfMemory> {
    let text = text_of(alloc, given)?;
    text_call(alloc, call, text.as_str())
}

/// The answer to a call, whose name is the first column.
pub(crate) fn emit_row(alloc: Global, columns: &str) -> Result<Text, OutOfMemory> {
    let (call, given) = first_column(columns);
    match call {
        "tree" => tree_line(alloc, given, false),
        "literal tree" => tree_line(alloc, given, true),
        _ => text_line(alloc, call, given),
    }
}
