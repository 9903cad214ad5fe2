//! A value as the words that `rows` reads, with a tab between each two.
use rows::add_escaped;
use snap_content::{OutOfMemory, Text};
use snap_yaml::{Array, Hash, Yaml};
use std::alloc::Global;

/// Adds a word, after a tab where it is not the first.
pub(crate) fn add_word(alloc: Global, line: &mut Text, word: &str) -> Result<(), OutOfMemory> {
    if !line.as_str().is_empty() {
        line.push_ascii(alloc, "\t")?;
    }
    line.push_str(alloc, word)
}

/// Adds the words of a value.
#[cycle(words)]
pub(crate) fn add_value(alloc: Global, line: &mut Text, value: &Yaml) -> Result<(), OutOfMemory> {
    match value {
        Yaml::Real(text) => add_text(alloc, line, "r", text.as_str()),
        Yaml::Integer(number) => add_number(alloc, line, *number),
        Yaml::String(text) => add_text(alloc, line, "s", text.as_str()),
        Yaml::Boolean(true) => add_word(alloc, line, "t"),
        Yaml::Boolean(false) => add_word(alloc, line, "f"),
        Yaml::Array(items) => add_items(alloc, line, items),
        Yaml::Hash(pairs) => add_pairs(alloc, line, pairs),
        Yaml::Null => add_word(alloc, line, "n"),
        Yaml::BadValue => add_word(alloc, line, "b"),
    }
}

/// Adds the words of the items, and how many they are.
#[cycle(words)]
fn add_items(alloc: Global, line: &mut Text, items: &Array) -> Result<(), OutOfMemory> {
    for item in items.as_slice() {
        add_value(alloc, line, item)?;
    }
    add_count(alloc, line, "a", items.len())
}

/// Adds the words of the pairs, and how many they are.
#[cycle(words)]
fn add_pairs(alloc: Global, line: &mut Text, pairs: &Hash) -> Result<(), OutOfMemory> {
    for (key, found) in pairs.as_slice() {
        add_value(alloc, line, key)?;
        add_value(alloc, line, found)?;
    }
    add_count(alloc, line, "h", pairs.len())
}

fn add_count(alloc: Global, line: &mut Text, kind: &str, count: usize) -> Result<(), OutOfMemory> {
    let word = format!(in alloc; "{kind}{count}")?;
    add_word(alloc, line, word.as_str())
}

fn add_number(alloc: Global, line: &mut Text, number: i64) -> Result<(), OutOfMemory> {
    let word = format!(in alloc; "i{number}")?;
    add_word(alloc, line, word.as_str())
}

fn add_text(alloc: Global, line: &mut Text, kind: &str, text: &str) -> Result<(), OutOfMemory> {
    add_word(alloc, line, kind)?;
    add_escaped(alloc, line, text)
}

/// The words of a value that was found, or of none.
pub(crate) fn found_line(alloc: Global, found: Option<&Yaml>) -> Result<Text, OutOfMemory> {
    let mut line = Text::empty();
    match found {
        Some(value) => add_value(alloc, &mut line, value)?,
        None => line.push_ascii(alloc, "none")?,
    }
    Ok(line)
}
