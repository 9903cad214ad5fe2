//! What the emitter writes of values, and what its calls give.
use crate::calls::called;
use rows::{add_escaped, first_column, value_of_line};
use snap_content::Text;
use snap_emit::{EmitError, YamlEmitter};
use snap_yaml::Yaml;
use std::alloc::Global;

/// The dump of a value.
fn dumped(alloc: Global, value: &Yaml) -> Result<Text, EmitError> {
    let mut text = Text::empty();
    let mut emitter = YamlEmitter::new(alloc, &mut text);
    emitter.dump(value)?;
    Ok(text)
}

/// The line of a value.
fn value_line(alloc: Global, line: &str) -> Result<Text, anyhow::Error> {
    match value_of_line(alloc, line)? {
        Some(value) => dump_line(alloc, &value),
        None => Ok(Text::empty()),
    }
}

fn dump_line(alloc: Global, value: &Yaml) -> Result<Text, anyhow::Error> {
    let text = dumped(alloc, value)?;
    let mut told = Text::empty();
    add_escaped(alloc, &mut told, text.as_str())?;
    Ok(told)
}

/// The line of a call: its text, or why it has none.
fn call_line(alloc: Global, name: &str, given: &str) -> Result<Text, anyhow::Error> {
    let mut told = Text::empty();
    match called(alloc, name, given) {
        Ok(text) => add_escaped(alloc, &mut told, text.as_str())?,
        Err(error) => {
            let line = format!(in alloc; "! {error}")?;
            told.push_str(alloc, line.as_str())?;
        }
    }
    Ok(told)
}

/// The line of a value, or of a call whose name is the first column.
pub(crate) fn dump_row(alloc: Global, columns: &str) -> Result<Text, anyhow::Error> {
    let (name, given) = first_column(columns);
    match name {
        "document" | "documents" | "dumps" | "length" | "printed" | "lines" | "out of memory" =>
            call_line(alloc, name, given),
        "inside" | "end" | "last" | "literal" | "switched" => call_line(alloc, name, given),
        "literal printed" | "literal lines" => call_line(alloc, name, given),
        _ => value_line(alloc, columns),
    }
}
