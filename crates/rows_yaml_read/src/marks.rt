//! Marks and refusals on lines, as the scanner, the parser and the loader give them.
use rows::add_text_column;
use snap_content::{OutOfMemory, Text};
use snap_scan_tokens::{Marker, ScanError, TScalarStyle};
use std::alloc::Global;

/// Adds a mark: its index, line and column.
pub(crate) fn add_mark(alloc: Global, lines: &mut Text, mark: Marker) -> Result<(), OutOfMemory> {
    let place = format!(in alloc; "{} {} {}", mark.index(), mark.line(), mark.col())?;
    lines.push_str(alloc, place.as_str())
}

/// Adds the line of a refusal, `! MARK CODE`. After out of memory there are no lines.
pub(crate) fn add_refusal(
    alloc: Global,
    lines: &mut Text,
    error: &ScanError,
) -> Result<(), OutOfMemory> {
    let ScanError::Syntax(mark, info) = error else {
        return Err(OutOfMemory);
    };
    lines.push_str(alloc, "! ")?;
    add_mark(alloc, lines, *mark)?;
    let code = format!(in alloc; " {info:?}\n")?;
    lines.push_str(alloc, code.as_str())
}

/// Adds the style of a scalar, after a tab.
pub(crate) fn add_style(
    alloc: Global,
    lines: &mut Text,
    style: TScalarStyle,
) -> Result<(), OutOfMemory> {
    let name = format!(in alloc; "{style:?}")?;
    add_text_column(alloc, lines, name.as_str())
}
