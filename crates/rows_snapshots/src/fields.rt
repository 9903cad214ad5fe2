//! Metadata in one column: fields `NAME=TEXT`, with `; ` between each two.
use crate::trees::tree_of_word;
use rows::text_of;
use snap_content::{OutOfMemory, Text};
use snap_store::{MetaData, SnapshotKind};
use std::alloc::Global;

/// The metadata with the fields of a column: `info` is a tree of one word, and `extension` makes the kind that of a payload.
pub fn metadata_of(alloc: Global, column: &str) -> Result<MetaData, OutOfMemory> {
    let mut metadata = MetaData::empty();
    for field in column.split("; ") {
        let (name, value) = field.split_once('=').unwrap_or((field, ""));
        set_field(alloc, &mut metadata, name, value)?;
    }
    Ok(metadata)
}

fn set_field(
    alloc: Global,
    metadata: &mut MetaData,
    name: &str,
    value: &str,
) -> Result<(), OutOfMemory> {
    match name {
        "assertion_line" => metadata.set_assertion_line(value.parse::<u32>().ok()),
        "info" => metadata.set_info(Some(tree_of_word(alloc, value)?)),
        _ => set_text(metadata, name, text_of(alloc, value)?),
    }
    Ok(())
}

fn set_text(metadata: &mut MetaData, name: &str, value: Text) {
    match name {
        "source" => metadata.set_source(Some(value)),
        "description" => metadata.set_description(Some(value)),
        "expression" => metadata.set_expression(Some(value)),
        "input_file" => metadata.set_input_file(Some(value)),
        "extension" => metadata.set_kind(SnapshotKind::Binary { extension: value }),
        _ => (),
    }
}
