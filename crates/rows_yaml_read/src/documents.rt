//! What the loader makes of a text, as lines.
use crate::marks::add_refusal;
use rows::add_escaped;
use snap_content::{OutOfMemory, Text};
use snap_parse::{Array, Hash, Yaml, YamlLoader};
use std::alloc::Global;

/// A line for each value, `DEPTH NAME` and what it holds, a list before its items and a pair's key before its value;
/// or `! MARK CODE` where the text is refused. A mark is its index, line and column.
pub(crate) fn document_lines(alloc: Global, text: &str) -> Result<Text, OutOfMemory> {
    let mut lines = Text::empty();
    match YamlLoader::load_from_str(alloc, text) {
        Ok(documents) => add_items(alloc, &mut lines, 0, &documents)?,
        Err(error) => add_refusal(alloc, &mut lines, &error)?,
    }
    Ok(lines)
}

#[cycle(documents)]
fn add_items(
    alloc: Global,
    lines: &mut Text,
    depth: u64,
    items: &Array,
) -> Result<(), OutOfMemory> {
    for item in items.as_slice() {
        add_value(alloc, lines, depth, item)?;
    }
    Ok(())
}

#[cycle(documents)]
fn add_pairs(alloc: Global, lines: &mut Text, depth: u64, pairs: &Hash) -> Result<(), OutOfMemory> {
    for (key, found) in pairs.as_slice() {
        add_value(alloc, lines, depth, key)?;
        add_value(alloc, lines, depth, found)?;
    }
    Ok(())
}

#[cycle(documents)]
fn add_value(alloc: Global, lines: &mut Text, depth: u64, held: &Yaml) -> Result<(), OutOfMemory> {
    match held {
        Yaml::Real(text) => add_line(alloc, lines, depth, "Real", text.as_str()),
        Yaml::Integer(number) => add_number(alloc, lines, depth, *number),
        Yaml::String(text) => add_line(alloc, lines, depth, "String", text.as_str()),
        Yaml::Boolean(true) => add_line(alloc, lines, depth, "Boolean", "true"),
        Yaml::Boolean(false) => add_line(alloc, lines, depth, "Boolean", "false"),
        Yaml::Array(items) => {
            add_count(alloc, lines, depth, "Array", items.len())?;
            add_items(alloc, lines, depth.saturating_add(1), items)
        }
        Yaml::Hash(pairs) => {
            add_count(alloc, lines, depth, "Hash", pairs.len())?;
            add_pairs(alloc, lines, depth.saturating_add(1), pairs)
        }
        Yaml::Null => add_line(alloc, lines, depth, "Null", ""),
        Yaml::BadValue => add_line(alloc, lines, depth, "BadValue", ""),
    }
}

fn add_number(alloc: Global, lines: &mut Text, depth: u64, number: i64) -> Result<(), OutOfMemory> {
    let digits = format!(in alloc; "{number}")?;
    add_line(alloc, lines, depth, "Integer", digits.as_str())
}

fn add_count(
    alloc: Global,
    lines: &mut Text,
    depth: u64,
    name: &str,
    count: usize,
) -> Result<(), OutOfMemory> {
    let digits = format!(in alloc; "{count}")?;
    add_line(alloc, lines, depth, name, digits.as_str())
}

/// Adds a line, in whose text a backslash stands before the letter of a line end, a tab or NUL, and before a backslash.
fn add_line(
    alloc: Global,
    lines: &mut Text,
    depth: u64,
    name: &str,
    text: &str,
) -> Result<(), OutOfMemory> {
    let head = format!(in alloc; "{depth} {name}\t")?;
    lines.push_str(alloc, head.as_str())?;
    add_escaped(alloc, lines, text)?;
    lines.push_str(alloc, "\n")
}
