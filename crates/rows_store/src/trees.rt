//! Metadata of trees, and trees of metadata.
//!
//! A map stands in one column: pairs `NAME=WORD` of a text and a tree of one word, with `; ` between each two.
use crate::shown::{add_tree, metadata_into_line};
use rows::text_of;
use rows_snapshots::tree_of_word;
use snap_content::{Content, Error, OutOfMemory, Pairs, Text};
use snap_store::MetaData;
use std::alloc::Global;

fn pair_of(alloc: Global, pair: &str) -> Result<(Content, Content), OutOfMemory> {
    let (name, word) = pair.split_once('=').unwrap_or((pair, ""));
    let name = text_of(alloc, name)?;
    let tree = tree_of_word(alloc, word)?;
    Ok((Content::String(name), tree))
}

fn map_of(alloc: Global, column: &str) -> Result<Content, OutOfMemory> {
    let mut pairs = Pairs::new(alloc);
    for pair in column.split("; ") {
        push_pair(alloc, &mut pairs, pair)?;
    }
    Ok(Content::Map(pairs))
}

fn push_pair(alloc: Global, pairs: &mut Pairs, pair: &str) -> Result<(), OutOfMemory> {
    pairs.push(pair_of(alloc, pair)?)
}

/// The metadata that a tree tells.
fn told_line(alloc: Global, tree: &Content) -> Result<Text, Error> {
    Ok(metadata_into_line(alloc, MetaData::from_content(alloc, tree)?)?)
}

/// The metadata that a map tells.
pub(crate) fn tree_line(alloc: Global, column: &str) -> Result<Text, Error> {
    let map = map_of(alloc, column)?;
    told_line(alloc, &map)
}

/// The metadata that a map in a wrapper tells.
pub(crate) fn wrapped_line(alloc: Global, column: &str) -> Result<Text, Error> {
    let map = wrapped_map(alloc, column)?;
    told_line(alloc, &map)
}

fn wrapped_map(alloc: Global, column: &str) -> Result<Content, OutOfMemory> {
    let map = map_of(alloc, column)?;
    Ok(Content::Some(Box::new(alloc, map)?))
}

/// The metadata that a tree of one word tells.
pub(crate) fn other_line(alloc: Global, column: &str) -> Result<Text, Error> {
    let tree = tree_of_word(alloc, column)?;
    told_line(alloc, &tree)
}

/// The tree that is made of the metadata of a map.
pub(crate) fn made_line(alloc: Global, column: &str) -> Result<Text, Error> {
    Ok(made_of(alloc, read_of(alloc, column)?)?)
}

/// The metadata of a map.
fn read_of(alloc: Global, column: &str) -> Result<MetaData, Error> {
    let map = map_of(alloc, column)?;
    MetaData::from_content(alloc, &map)
}

fn made_of(alloc: Global, metadata: MetaData) -> Result<Text, OutOfMemory> {
    let line = pairs_of_metadata(alloc, &metadata);
    drop(metadata);
    line
}

fn pairs_of_metadata(alloc: Global, metadata: &MetaData) -> Result<Text, OutOfMemory> {
    let tree = metadata.to_content(alloc)?;
    pairs_line(alloc, &tree)
}

/// The pairs of a map, as they stand in a column.
fn pairs_line(alloc: Global, tree: &Content) -> Result<Text, OutOfMemory> {
    let Content::Map(pairs) = tree else {
        return Text::from_ascii(alloc, "no map");
    };
    let mut line = Text::empty();
    for (name, value) in pairs.as_slice() {
        add_pair(alloc, &mut line, name, value)?;
    }
    Ok(line)
}

fn add_pair(
    alloc: Global,
    line: &mut Text,
    name: &Content,
    value: &Content,
) -> Result<(), OutOfMemory> {
    if line.len() > 0 {
        line.push_ascii(alloc, "; ")?;
    }
    match name {
        Content::String(text) => line.push_text(alloc, text)?,
        _ => line.push_ascii(alloc, "?")?,
    }
    line.push_ascii(alloc, "=")?;
    add_tree(alloc, line, value)
}
