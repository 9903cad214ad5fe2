//! What is asked of texts and of values.
use crate::error::AskError;
use crate::lists::{copied_line, list_line, order_line};
use crate::readers::readers_line;
use crate::words::{add_value, add_word, found_line};
use rows::{first_column, text_of, value_of_line};
use snap_content::{OutOfMemory, Text};
use snap_yaml::{Yaml, YamlIter};
use std::alloc::Global;

/// The answer to a question, whose name is the first column.
pub(crate) fn question_line(alloc: Global, columns: &str) -> Result<Text, anyhow::Error> {
    let (name, columns) = first_column(columns);
    match name {
        "plain" => Ok(plain(alloc, columns)?),
        "tagged" => Ok(tagged(alloc, columns)?),
        "readers" => readers_line(alloc, columns),
        "get" => at_text(alloc, columns),
        "get_at" => at_index(alloc, columns),
        "items" => Ok(items_line(alloc, read_value(alloc, columns)?)?),
        _ => answered_of_lists(alloc, name, columns),
    }
}

/// The answer to a question of copies, orders and lists.
fn answered_of_lists(alloc: Global, name: &str, columns: &str) -> Result<Text, anyhow::Error> {
    match name {
        "list" => list(alloc, columns),
        "copy" => copy(alloc, columns),
        "order" => order_line(alloc, &read_value(alloc, columns)?),
        _ => Err(AskError::NoQuestion.into()),
    }
}

/// The value that stands in the columns.
pub(crate) fn read_value(alloc: Global, columns: &str) -> Result<Yaml, anyhow::Error> {
    match value_of_line(alloc, columns)? {
        Some(value) => Ok(value),
        None => Err(AskError::NoValue.into()),
    }
}

fn read_index(digits: &str) -> Result<usize, AskError> {
    match digits.parse::<usize>() {
        Ok(index) => Ok(index),
        Err(_) => Err(AskError::NoIndex),
    }
}

/// What a plain scalar is typed as.
fn plain(alloc: Global, column: &str) -> Result<Text, OutOfMemory> {
    let text = text_of(alloc, column)?;
    let typed = Yaml::from_str(alloc, text.as_str())?;
    found_line(alloc, Some(&typed))
}

/// What a plain scalar is after a tag.
fn tagged(alloc: Global, columns: &str) -> Result<Text, OutOfMemory> {
    let (handle, others) = first_column(columns);
    let (suffix, column) = first_column(others);
    let text = text_of(alloc, column)?;
    let typed = Yaml::tagged(alloc, handle, suffix, text.as_str())?;
    found_line(alloc, Some(&typed))
}

/// What stands under a text in a value.
fn at_text(alloc: Global, columns: &str) -> Result<Text, anyhow::Error> {
    let (column, others) = first_column(columns);
    let value = read_value(alloc, others)?;
    under_text(alloc, &value, column)
}

fn under_text(alloc: Global, value: &Yaml, column: &str) -> Result<Text, anyhow::Error> {
    let key = text_of(alloc, column)?;
    Ok(found_line(alloc, value.get(key.as_str()))?)
}

/// What stands at an index of a value.
fn at_index(alloc: Global, columns: &str) -> Result<Text, anyhow::Error> {
    let (column, others) = first_column(columns);
    let index = read_index(column)?;
    let value = read_value(alloc, others)?;
    found_at(alloc, &value, index)
}

fn found_at(alloc: Global, value: &Yaml, index: usize) -> Result<Text, anyhow::Error> {
    Ok(found_line(alloc, value.get_at(index))?)
}

/// Whether a copy of a value is equal, and what it is.
fn copy(alloc: Global, columns: &str) -> Result<Text, anyhow::Error> {
    let value = read_value(alloc, columns)?;
    copied_line(alloc, &value)
}

/// The list that is filled anew, and what stands at an index of it.
fn list(alloc: Global, columns: &str) -> Result<Text, anyhow::Error> {
    let (column, others) = first_column(columns);
    let index = read_index(column)?;
    list_line(alloc, index, read_value(alloc, others)?)
}

/// The items of a value, and `end` where none comes after the last.
fn items_line(alloc: Global, value: Yaml) -> Result<Text, OutOfMemory> {
    let mut items = value.into_iter();
    each_line(alloc, &mut items)
}

fn each_line(alloc: Global, items: &mut YamlIter) -> Result<Text, OutOfMemory> {
    let mut line = Text::empty();
    while let Some(item) = items.next() {
        add_item(alloc, &mut line, item)?;
    }
    if items.next().is_none() {
        add_word(alloc, &mut line, "end")?;
    }
    Ok(line)
}

/// Adds a value that ends here.
fn add_item(alloc: Global, line: &mut Text, item: Yaml) -> Result<(), OutOfMemory> {
    add_value(alloc, line, &item)
}
