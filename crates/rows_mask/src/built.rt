//! Inputs that lines build.
use rows::text_of;
use snap_content::{Blob, OutOfMemory, Text};
use std::alloc::Global;

/// The bytes that columns build: texts, each with how often it stands there.
pub(crate) fn built_of(alloc: Global, columns: &str) -> Result<Blob, OutOfMemory> {
    let mut built = Text::empty();
    let mut held = None;
    for column in columns.split('\t') {
        match held.take() {
            None => held = Some(text_of(alloc, column)?),
            Some(part) => push_often(alloc, &mut built, &part, column.parse().unwrap_or(0))?,
        }
    }
    Blob::from_slice(alloc, built.as_str().as_bytes())
}

fn push_often(alloc: Global, built: &mut Text, part: &Text, times: u32) -> Result<(), OutOfMemory> {
    for _time in 0..times {
        built.push_text(alloc, part)?;
    }
    Ok(())
}
