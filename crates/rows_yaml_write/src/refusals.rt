//! Why a text is refused, in words.
use rows::add_escaped;
use snap_content::{Error, OutOfMemory, Text};
use std::alloc::Global;

/// The line of a refusal alone.
pub(crate) fn refusal_line(alloc: Global, error: &Error) -> Result<Text, OutOfMemory> {
    let mut line = Text::empty();
    add_refusal(alloc, &mut line, error)?;
    Ok(line)
}

/// Adds `!`, the name of the error and the path in it. After out of memory there is no line.
fn add_refusal(alloc: Global, line: &mut Text, error: &Error) -> Result<(), OutOfMemory> {
    match error {
        Error::FailedParsingYaml(path) => add_named(alloc, line, "! FailedParsingYaml ", path),
        Error::FloatText(path) => add_named(alloc, line, "! FloatText ", path),
        Error::OutOfMemory => Err(OutOfMemory),
        _ => line.push_ascii(alloc, "! another error"),
    }
}

fn add_named(alloc: Global, line: &mut Text, name: &str, path: &Text) -> Result<(), OutOfMemory> {
    line.push_str(alloc, name)?;
    add_escaped(alloc, line, path.as_str())
}
