//! One row and its answer.
use snap_content::{OutOfMemory, Text};
use snap_str::cut::split_once;
use snap_text_literals::frame::inline_legacy_text;
use snap_text_literals::inline::{inline_normal_text, min_indentation, normalize_inline};
use snap_text_literals::literal::{from_inline_literal, literal_is_open, to_inline};
use snap_text_literals::{LiteralError, literal_len, read_literal, required_hashes};
use std::alloc::Global;

/// The answer to a row; empty where the row is none.
pub(crate) fn answer(alloc: Global, row: &str) -> Result<Text, OutOfMemory> {
    let Some((operation, texts)) = split_once(row, '\t') else {
        return Ok(Text::empty());
    };
    match split_once(texts, '\t') {
        None => answer_for(alloc, operation, texts, ""),
        Some((first, second)) => answer_for(alloc, operation, first, second),
    }
}

fn answer_for(
    alloc: Global,
    operation: &str,
    first: &str,
    second: &str,
) -> Result<Text, OutOfMemory> {
    let text = field(alloc, first)?;
    let text = text.as_str();
    match operation {
        "required_hashes" => number(alloc, required_hashes(text)),
        "min_indentation" => spelled(alloc, min_indentation(alloc, text)?.as_str()),
        "normalize_inline" => spelled(alloc, normalize_inline(alloc, text)?.as_str()),
        "normal" => spelled(alloc, inline_normal_text(alloc, text)?.as_str()),
        "legacy" => spelled(alloc, inline_legacy_text(alloc, text)?.as_str()),
        "from_inline_literal" => opened(alloc, text),
        "to_inline" => spelled(
            alloc,
            to_inline(alloc, text, field(alloc, second)?.as_str())?.as_str(),
        ),
        "read_literal" => read(alloc, text),
        "literal_len" => front(alloc, text),
        _ => Ok(Text::empty()),
    }
}

/// The text that a field is written as; empty where it is no literal.
fn field(alloc: Global, source: &str) -> Result<Text, OutOfMemory> {
    match read_literal(alloc, source) {
        Ok(text) => Ok(text),
        Err(LiteralError::NotLiteral) => Ok(Text::empty()),
        Err(LiteralError::OutOfMemory) => Err(OutOfMemory),
    }
}

fn number(alloc: Global, value: usize) -> Result<Text, OutOfMemory> {
    let digits = format!(in alloc; "{value}")?;
    Text::from_str(alloc, digits.as_str())
}

/// The text as a literal of printable ASCII characters, whatever it holds.
fn spelled(alloc: Global, text: &str) -> Result<Text, OutOfMemory> {
    let mut literal = Text::from_str(alloc, "\"")?;
    for c in text.chars() {
        if (c == ' ' || c.is_ascii_graphic()) && c != '"' && c != '\\' {
            literal.push(alloc, c)?;
        } else {
            let code = c as u32;
            let escape = format!(in alloc; "\\u{{{code:x}}}")?;
            literal.push_str(alloc, escape.as_str())?;
        }
    }
    literal.push_str(alloc, "\"")?;
    Ok(literal)
}

/// The text of a literal's snapshot, and whether the literal is open.
fn opened(alloc: Global, contents: &str) -> Result<Text, OutOfMemory> {
    let mut answer = spelled(alloc, from_inline_literal(alloc, contents)?.as_str())?;
    answer.push_str(
        alloc,
        if literal_is_open(contents) {
            "\topen"
        } else {
            "\tclosed"
        },
    )?;
    Ok(answer)
}

/// The text of a literal, or that it is none.
fn read(alloc: Global, source: &str) -> Result<Text, OutOfMemory> {
    match read_literal(alloc, source) {
        Ok(text) => spelled(alloc, text.as_str()),
        Err(LiteralError::NotLiteral) => Text::from_str(alloc, "NotLiteral"),
        Err(LiteralError::OutOfMemory) => Err(OutOfMemory),
    }
}

/// How many bytes the literal has with which a text begins, or that it begins with none.
fn front(alloc: Global, source: &str) -> Result<Text, OutOfMemory> {
    match literal_len(source) {
        Some(bytes) => number(alloc, bytes),
        None => Text::from_str(alloc, "NotLiteral"),
    }
}
