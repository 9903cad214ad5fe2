//! Statuses by their names.
use crate::runs::add_status;
use rows::first_column;
use snap_content::Text;
use snap_mask::MaskStatus;
use std::alloc::Global;

/// The status of this name, with this line.
fn status_named(name: &str, line: u64) -> Option<MaskStatus> {
    match name {
        "Done" => Some(MaskStatus::Done),
        "BadWords" => Some(MaskStatus::BadWords),
        "BadLine" => Some(MaskStatus::BadLine { line }),
        "FloatLine" => Some(MaskStatus::FloatLine { line }),
        "LineTooLong" => Some(MaskStatus::LineTooLong { line }),
        "ReadFault" => Some(MaskStatus::ReadFault),
        "WriteFault" => Some(MaskStatus::WriteFault),
        "OutOfMemory" => Some(MaskStatus::OutOfMemory),
        "JsonKey" => Some(MaskStatus::JsonKey { line }),
        "InputTooLong" => Some(MaskStatus::InputTooLong),
        _ => None,
    }
}

/// The exit status of a status, and what it says.
pub(crate) fn status_line(alloc: Global, columns: &str) -> Result<Text, anyhow::Error> {
    let (name, line) = first_column(columns);
    let mut answer = Text::empty();
    match status_named(name, line.parse().unwrap_or(0)) {
        Some(status) => add_status(alloc, &mut answer, status)?,
        None => answer.push_ascii(alloc, "! no such status")?,
    }
    Ok(answer)
}
