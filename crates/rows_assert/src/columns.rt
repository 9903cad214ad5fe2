//! The columns of a line.
use rows::add_text_column;
use snap_content::{OutOfMemory, Text};
use snap_select::SelectError;
use std::alloc::Global;

/// Adds a column with what became of a selector: what is wrong in it and where, if something is. After out of memory there is none.
pub(crate) fn add_taken(
    alloc: Global,
    line: &mut Text,
    taken: Result<(), SelectError>,
) -> Result<(), OutOfMemory> {
    match taken {
        Ok(()) => add_text_column(alloc, line, "taken"),
        Err(SelectError::Parse(refusal)) => {
            let told = format!(in alloc; "! {} {}", refusal.kind(), refusal.column())?;
            add_text_column(alloc, line, told.as_str())
        }
        Err(SelectError::OutOfMemory) => Err(OutOfMemory),
    }
}

/// The front of a text up to the first blank, and what is after that.
pub(crate) fn word(text: &str) -> (&str, &str) {
    text.split_once(' ').unwrap_or((text, ""))
}
