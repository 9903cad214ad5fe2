//! What the usage text holds.
use rows::text_of;
use snap_content::{OutOfMemory, Text};
use snap_run::usage::USAGE;
use std::alloc::Global;

/// The word for a truth.
fn truth(alloc: Global, holds: bool) -> Result<Text, OutOfMemory> {
    Text::from_str(alloc, if holds { "true" } else { "false" })
}

/// Whether the usage text has this part.
pub(crate) fn usage_line(alloc: Global, column: &str) -> Result<Text, anyhow::Error> {
    let part = text_of(alloc, column)?;
    Ok(truth(alloc, USAGE.contains(part.as_str()))?)
}

/// Whether the usage text has at most so many lines.
pub(crate) fn usage_length_line(alloc: Global, digits: &str) -> Result<Text, anyhow::Error> {
    let most: usize = digits.parse().unwrap_or(0);
    Ok(truth(alloc, USAGE.lines().count() <= most)?)
}
