//! What trees hold: bytes, items, pairs and fields, and copies of these.
use crate::columns::add_copy;
use crate::error::AskError;
use snap_content::{Blob, Content, Fields, Items, OutOfMemory, Pairs, Text};
use std::alloc::Global;

/// How many the tree holds, whether a copy of these is equal, and what the copy is: of fields, as a struct without a name.
pub(crate) fn held_line(alloc: Global, tree: &Content) -> Result<Text, anyhow::Error> {
    match tree {
        Content::Bytes(bytes) => Ok(bytes_line(alloc, bytes)?),
        Content::Seq(items) => Ok(items_line(alloc, items)?),
        Content::Map(pairs) => Ok(pairs_line(alloc, pairs)?),
        Content::Struct(_, fields) => Ok(fields_line(alloc, fields)?),
        _ => Err(AskError::NothingHeld.into()),
    }
}

fn bytes_line(alloc: Global, bytes: &Blob) -> Result<Text, OutOfMemory> {
    let mut line = count_line(alloc, bytes.as_slice().len())?;
    let copy = bytes.try_clone(alloc)?;
    let is_equal = copy == *bytes;
    add_copy(alloc, &mut line, is_equal, Content::Bytes(copy))?;
    Ok(line)
}

fn items_line(alloc: Global, items: &Items) -> Result<Text, OutOfMemory> {
    let mut line = count_line(alloc, items.len())?;
    let copy = items.try_clone(alloc)?;
    let is_equal = copy == *items;
    add_copy(alloc, &mut line, is_equal, Content::Seq(copy))?;
    Ok(line)
}

fn pairs_line(alloc: Global, pairs: &Pairs) -> Result<Text, OutOfMemory> {
    let mut line = count_line(alloc, pairs.len())?;
    let copy = pairs.try_clone(alloc)?;
    let is_equal = copy == *pairs;
    add_copy(alloc, &mut line, is_equal, Content::Map(copy))?;
    Ok(line)
}

fn fields_line(alloc: Global, fields: &Fields) -> Result<Text, OutOfMemory> {
    let mut line = count_line(alloc, fields.len())?;
    let copy = fields.try_clone(alloc)?;
    let is_equal = copy == *fields;
    let copy = Content::Struct(Text::empty(), copy);
    add_copy(alloc, &mut line, is_equal, copy)?;
    Ok(line)
}

fn count_line(alloc: Global, count: usize) -> Result<Text, OutOfMemory> {
    let word = format!(in alloc; "{count}")?;
    Text::from_str(alloc, word.as_str())
}
