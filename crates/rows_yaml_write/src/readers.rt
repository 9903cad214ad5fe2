//! What the readers of a value give.
use crate::asked::read_value;
use crate::words::{add_value, add_word};
use rows::add_escaped;
use snap_content::{OutOfMemory, Text};
use snap_yaml::Yaml;
use std::alloc::Global;
use std::fmt::Display;

/// The name of each reader that gives something, and what it gives. The value is read anew for each reader that takes it.
pub(crate) fn readers_line(alloc: Global, columns: &str) -> Result<Text, anyhow::Error> {
    let mut line = Text::empty();
    add_borrowed(alloc, &mut line, read_value(alloc, columns)?)?;
    add_taken(alloc, &mut line, columns)?;
    if line.as_str().is_empty() {
        line.push_ascii(alloc, "nothing")?;
    }
    Ok(line)
}

/// Adds what the readers that borrow the value give. The value ends here.
fn add_borrowed(alloc: Global, line: &mut Text, value: Yaml) -> Result<(), OutOfMemory> {
    add_lent(alloc, line, &value)
}

fn add_lent(alloc: Global, line: &mut Text, value: &Yaml) -> Result<(), OutOfMemory> {
    add_kinds(alloc, line, value)?;
    add_given(alloc, line, "as_bool", value.as_bool())?;
    add_given(alloc, line, "as_i64", value.as_i64())?;
    add_text(alloc, line, "as_str", value.as_str())?;
    let items = value.as_vec().map(|items| items.len());
    add_given(alloc, line, "as_vec", items)?;
    let pairs = value.as_hash().map(|pairs| pairs.len());
    add_given(alloc, line, "as_hash", pairs)
}

/// Adds what the readers that take the value give.
fn add_taken(alloc: Global, line: &mut Text, columns: &str) -> Result<(), anyhow::Error> {
    let truth = read_value(alloc, columns)?.into_bool();
    add_given(alloc, line, "into_bool", truth)?;
    let number = read_value(alloc, columns)?.into_i64();
    add_given(alloc, line, "into_i64", number)?;
    add_taken_text(alloc, line, read_value(alloc, columns)?)?;
    add_taken_lists(alloc, line, columns)
}

fn add_taken_text(alloc: Global, line: &mut Text, value: Yaml) -> Result<(), OutOfMemory> {
    match value.into_string() {
        Some(text) => add_text(alloc, line, "into_string", Some(text.as_str())),
        None => Ok(()),
    }
}

fn add_taken_lists(alloc: Global, line: &mut Text, columns: &str) -> Result<(), anyhow::Error> {
    if let Some(items) = read_value(alloc, columns)?.into_vec() {
        add_list(alloc, line, "into_vec", Yaml::Array(items))?;
    }
    if let Some(pairs) = read_value(alloc, columns)?.into_hash() {
        add_list(alloc, line, "into_hash", Yaml::Hash(pairs))?;
    }
    Ok(())
}

/// Adds the names of the questions that are answered by yes.
fn add_kinds(alloc: Global, line: &mut Text, value: &Yaml) -> Result<(), OutOfMemory> {
    if value.is_null() {
        add_word(alloc, line, "is_null")?;
    }
    if value.is_badvalue() {
        add_word(alloc, line, "is_badvalue")?;
    }
    if value.is_array() {
        add_word(alloc, line, "is_array")?;
    }
    Ok(())
}

/// Adds what a reader gives, after its name.
fn add_given<T: Display + Drop>(
    alloc: Global,
    line: &mut Text,
    name: &str,
    given: Option<T>,
) -> Result<(), OutOfMemory> {
    let Some(value) = given else {
        return Ok(());
    };
    let word = format!(in alloc; "{name} {value}")?;
    add_word(alloc, line, word.as_str())
}

fn add_text(
    alloc: Global,
    line: &mut Text,
    name: &str,
    given: Option<&str>,
) -> Result<(), OutOfMemory> {
    let Some(text) = given else {
        return Ok(());
    };
    add_word(alloc, line, name)?;
    line.push_ascii(alloc, " ")?;
    add_escaped(alloc, line, text)
}

/// Adds a list that ends here, after a name.
fn add_list(alloc: Global, line: &mut Text, name: &str, list: Yaml) -> Result<(), OutOfMemory> {
    add_named(alloc, line, name, &list)
}

fn add_named(alloc: Global, line: &mut Text, name: &str, list: &Yaml) -> Result<(), OutOfMemory> {
    add_word(alloc, line, name)?;
    add_value(alloc, line, list)
}
