//! The texts of values under new settings.
use rows::{add_text_column, first_column, tree_of_column};
use snap_assert_serialize::{
    SerializationFormat, serialize_content, serialize_value, serialize_value_redacted,
};
use snap_assert_settings::{Redactions, Settings};
use snap_content::{Content, OutOfMemory, Text};
use snap_json::JsonError;
use snap_select::Redaction;
use std::alloc::Global;

fn format_of(word: &str) -> SerializationFormat {
    match word {
        "Yaml" => SerializationFormat::Yaml,
        "Json" => SerializationFormat::Json,
        _ => SerializationFormat::JsonCompact,
    }
}

/// A column with the text, or with why there is none.
fn text_line(alloc: Global, text: Result<Text, JsonError>) -> Result<Text, OutOfMemory> {
    let mut line = Text::empty();
    match text {
        Ok(text) => add_text_column(alloc, &mut line, text.as_str())?,
        Err(JsonError::JsonKey) => add_text_column(alloc, &mut line, "! JsonKey")?,
        Err(JsonError::OutOfMemory) => return Err(OutOfMemory),
    }
    Ok(line)
}

/// The text of a tree.
pub(crate) fn content_line(alloc: Global, columns: &str) -> Result<Text, anyhow::Error> {
    let settings = Settings::new(alloc)?;
    content_with(alloc, &settings, columns)
}

fn content_with(alloc: Global, settings: &Settings, columns: &str) -> Result<Text, anyhow::Error> {
    let (format, tree) = first_column(columns);
    let content = tree_of_column(alloc, tree)?;
    let text = serialize_content(alloc, content, settings, format_of(format), false);
    Ok(text_line(alloc, text)?)
}

/// The text of a value that means a tree.
pub(crate) fn value_line(alloc: Global, columns: &str) -> Result<Text, anyhow::Error> {
    let settings = Settings::new(alloc)?;
    value_with(alloc, &settings, columns)
}

fn value_with(alloc: Global, settings: &Settings, columns: &str) -> Result<Text, anyhow::Error> {
    let (format, tree) = first_column(columns);
    let content = tree_of_column(alloc, tree)?;
    let text = serialize_value(alloc, &content, settings, format_of(format), false);
    drop(content);
    Ok(text_line(alloc, text)?)
}

/// The text of a value that means a tree, redacted first.
pub(crate) fn redacted_line(alloc: Global, columns: &str) -> Result<Text, anyhow::Error> {
    let (format, columns) = first_column(columns);
    let (tree, columns) = first_column(columns);
    let (selector, text) = first_column(columns);
    let put = Redaction::from_content(Content::from_str(alloc, text)?);
    let mut redactions = Redactions::new(alloc);
    redactions.add(alloc, selector, put)?;
    redacted_by(alloc, &redactions, format, tree)
}

fn redacted_by(
    alloc: Global,
    redactions: &Redactions,
    format: &str,
    tree: &str,
) -> Result<Text, anyhow::Error> {
    let settings = Settings::new(alloc)?;
    redacted_with(alloc, redactions, &settings, format, tree)
}

fn redacted_with(
    alloc: Global,
    redactions: &Redactions,
    settings: &Settings,
    format: &str,
    tree: &str,
) -> Result<Text, anyhow::Error> {
    let content = tree_of_column(alloc, tree)?;
    let format = format_of(format);
    let text = serialize_value_redacted(alloc, &content, redactions, settings, format, false);
    drop(content);
    Ok(text_line(alloc, text)?)
}
