//! What trees are as keys of maps.
use crate::columns::add_word;
use rows::add_escaped;
use snap_content::{Content, Key, OutOfMemory, Text};
use std::alloc::Global;
use std::fmt::Display;

/// What each tree is as a key.
pub(crate) fn keys_line(alloc: Global, trees: &[Content]) -> Result<Text, OutOfMemory> {
    let mut line = Text::empty();
    for tree in trees {
        add_key(alloc, &mut line, tree.as_key())?;
    }
    Ok(line)
}

/// Adds a column with the kind of a key, and its value.
fn add_key(alloc: Global, line: &mut Text, key: Key<'_>) -> Result<(), OutOfMemory> {
    match key {
        Key::Str(text) => {
            add_word(alloc, line, "Str ")?;
            add_escaped(alloc, line, text)
        }
        Key::Bytes(bytes) => add_bytes(alloc, line, bytes),
        Key::Other => add_word(alloc, line, "Other"),
        plain => add_plain(alloc, line, plain),
    }
}

/// Adds a column with a truth value or a number.
fn add_plain(alloc: Global, line: &mut Text, key: Key<'_>) -> Result<(), OutOfMemory> {
    match key {
        Key::Bool(truth) => add_shown(alloc, line, "Bool", &truth),
        Key::U64(number) => add_shown(alloc, line, "U64", &number),
        Key::I64(number) => add_shown(alloc, line, "I64", &number),
        Key::U128(number) => add_shown(alloc, line, "U128", &number),
        Key::I128(number) => add_shown(alloc, line, "I128", &number),
        _ => Ok(()),
    }
}

/// Adds a column with a kind and a value.
fn add_shown(
    alloc: Global,
    line: &mut Text,
    kind: &str,
    value: &impl Display,
) -> Result<(), OutOfMemory> {
    let word = format!(in alloc; "{kind} {value}")?;
    add_word(alloc, line, word.as_str())
}

/// Adds a column with bytes, a blank before each.
fn add_bytes(alloc: Global, line: &mut Text, bytes: &[u8]) -> Result<(), OutOfMemory> {
    add_word(alloc, line, "Bytes")?;
    for byte in bytes {
        let word = format!(in alloc; " {byte}")?;
        line.push_str(alloc, word.as_str())?;
    }
    Ok(())
}
