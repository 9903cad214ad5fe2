//! The source of metadata as it is seen from a folder.
use rows::{add_text_column, text_of};
use snap_content::{OutOfMemory, Text};
use snap_store::MetaData;
use std::alloc::Global;

/// The source of the second column, or none where there is none, as it is seen from the folder of the first.
pub(crate) fn relative_source_line(alloc: Global, columns: &str) -> Result<Text, OutOfMemory> {
    match columns.split_once('\t') {
        None => seen_line(alloc, None, columns),
        Some((base, source)) => seen_line(alloc, Some(text_of(alloc, source)?), base),
    }
}

fn seen_line(alloc: Global, source: Option<Text>, base: &str) -> Result<Text, OutOfMemory> {
    let base = text_of(alloc, base)?;
    let mut metadata = MetaData::empty();
    metadata.set_source(source);
    seen_from(alloc, &metadata, &base)
}

fn seen_from(alloc: Global, metadata: &MetaData, base: &Text) -> Result<Text, OutOfMemory> {
    let Some(seen) = metadata.get_relative_source(alloc, base)? else {
        return Text::from_ascii(alloc, "no source");
    };
    let mut line = Text::empty();
    add_text_column(alloc, &mut line, seen.as_str())?;
    Ok(line)
}
