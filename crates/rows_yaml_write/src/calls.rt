//! The calls of the emitter, by their names.
use crate::error::AskError;
use rows::{tree_of_line, value_of_line};
use snap_content::{Content, OutOfMemory, Text};
use snap_emit::{EmitError, YamlEmitter, written_len};
use snap_emit_values::Blocks;
use snap_emit_values::documents::{document_text, push_document};
use snap_emit_values::printing::{print_body, printed_document};
use snap_yaml::{Array, Yaml};
use std::alloc::Global;

/// The text that a call gives.
pub(crate) fn called(alloc: Global, name: &str, given: &str) -> Result<Text, anyhow::Error> {
    match name {
        "document" => document(alloc, given, Blocks::Off),
        "inside" => document(alloc, given, Blocks::Inside),
        "end" => document(alloc, given, Blocks::End),
        "last" => document(alloc, given, Blocks::Last),
        "documents" => documents(alloc, given),
        "dumps" => dumps(alloc, given),
        "literal" => literal_dump(alloc, given),
        "switched" => switched_dumps(alloc, given),
        "length" => length(alloc, given),
        "printed" => printed(alloc, given, false),
        "literal printed" => printed(alloc, given, true),
        "lines" => tree_body(alloc, given, false),
        "literal lines" => tree_body(alloc, given, true),
        "out of memory" => Err(EmitError::from(OutOfMemory).into()),
        _ => Err(AskError::NoCall.into()),
    }
}

/// The value that is given.
fn given_value(alloc: Global, given: &str) -> Result<Yaml, anyhow::Error> {
    match value_of_line(alloc, given)? {
        Some(value) => Ok(value),
        None => Err(AskError::NoValue.into()),
    }
}

/// The items of the array that is given.
fn given_items(alloc: Global, given: &str) -> Result<Array, anyhow::Error> {
    match given_value(alloc, given)?.into_vec() {
        Some(items) => Ok(items),
        None => Err(AskError::NoArray.into()),
    }
}

fn document(alloc: Global, given: &str, blocks: Blocks) -> Result<Text, anyhow::Error> {
    let value = given_value(alloc, given)?;
    document_of(alloc, &value, blocks)
}

fn document_of(alloc: Global, value: &Yaml, blocks: Blocks) -> Result<Text, anyhow::Error> {
    Ok(document_text(alloc, value, blocks)?)
}

fn documents(alloc: Global, given: &str) -> Result<Text, anyhow::Error> {
    let items = given_items(alloc, given)?;
    documents_of(alloc, items.as_slice())
}

fn documents_of(alloc: Global, items: &[Yaml]) -> Result<Text, anyhow::Error> {
    let mut text = Text::empty();
    for item in items {
        push_document(&mut text, alloc, item, Blocks::Off)?;
    }
    Ok(text)
}

fn dumps(alloc: Global, given: &str) -> Result<Text, anyhow::Error> {
    let items = given_items(alloc, given)?;
    dumps_of(alloc, items.as_slice())
}

fn dumps_of(alloc: Global, items: &[Yaml]) -> Result<Text, anyhow::Error> {
    let mut text = Text::from_str(alloc, "before\n")?;
    dump_each(alloc, &mut text, items)?;
    Ok(text)
}

/// Adds the dump of each value, by one emitter.
fn dump_each(alloc: Global, text: &mut Text, items: &[Yaml]) -> Result<(), EmitError> {
    let mut emitter = YamlEmitter::new(alloc, text);
    for item in items {
        emitter.dump(item)?;
    }
    Ok(())
}

/// What an emitter adds for a value, with literal blocks.
fn literal_dump(alloc: Global, given: &str) -> Result<Text, anyhow::Error> {
    let value = given_value(alloc, given)?;
    literal_dump_of(alloc, &value)
}

fn literal_dump_of(alloc: Global, value: &Yaml) -> Result<Text, anyhow::Error> {
    let mut text = Text::empty();
    dump_literal(alloc, &mut text, value)?;
    Ok(text)
}

/// Adds the dump of a value with literal blocks.
fn dump_literal(alloc: Global, text: &mut Text, value: &Yaml) -> Result<(), EmitError> {
    let mut emitter = YamlEmitter::new(alloc, text);
    emitter.use_literal_blocks(true);
    emitter.dump(value)
}

/// What one emitter adds for each item of an array, with literal blocks for the second and for each other item after it.
fn switched_dumps(alloc: Global, given: &str) -> Result<Text, anyhow::Error> {
    let items = given_items(alloc, given)?;
    switched_dumps_of(alloc, items.as_slice())
}

fn switched_dumps_of(alloc: Global, items: &[Yaml]) -> Result<Text, anyhow::Error> {
    let mut text = Text::empty();
    dump_switched(alloc, &mut text, items)?;
    Ok(text)
}

/// Adds the dump of each value, by one emitter that is switched after each.
fn dump_switched(alloc: Global, text: &mut Text, items: &[Yaml]) -> Result<(), EmitError> {
    let mut emitter = YamlEmitter::new(alloc, text);
    let mut literal = false;
    for item in items {
        emitter.dump(item)?;
        literal = !literal;
        emitter.use_literal_blocks(literal);
    }
    Ok(())
}

/// How long a scalar is written, in digits.
fn length(alloc: Global, given: &str) -> Result<Text, anyhow::Error> {
    let value = given_value(alloc, given)?;
    digits_of(alloc, written_len(&value))
}

fn digits_of(alloc: Global, number: u128) -> Result<Text, anyhow::Error> {
    let digits = format!(in alloc; "{number}")?;
    Ok(Text::from_str(alloc, digits.as_str())?)
}

fn printed(alloc: Global, given: &str, literal: bool) -> Result<Text, anyhow::Error> {
    let tree = tree_of_line(alloc, given)?;
    printed_of(alloc, &tree, literal)
}

fn printed_of(alloc: Global, tree: &Content, literal: bool) -> Result<Text, anyhow::Error> {
    Ok(printed_document(alloc, tree, literal)?)
}

/// The lines of a tree, without `---`.
fn tree_body(alloc: Global, given: &str, literal: bool) -> Result<Text, anyhow::Error> {
    let tree = tree_of_line(alloc, given)?;
    body_of(alloc, &tree, literal)
}

fn body_of(alloc: Global, tree: &Content, literal: bool) -> Result<Text, anyhow::Error> {
    let mut text = Text::empty();
    print_body(&mut text, alloc, tree, literal)?;
    Ok(text)
}
