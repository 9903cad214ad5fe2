//! The values of lines, and how long their dumps are.
use rows::value_of_line;
use snap_content::{OutOfMemory, Text};
use snap_emit::{EmitError, YamlEmitter};
use snap_yaml::Yaml;
use std::alloc::Global;

/// The values of the lines. A line that is no value is passed over.
pub(crate) fn values_of(alloc: Global, lines: &str) -> Result<Vec<Yaml>, OutOfMemory> {
    let mut values = Vec::new(alloc);
    for line in lines.lines() {
        if let Some(value) = value_of_line(alloc, line)? {
            values.push(value)?;
        }
    }
    Ok(values)
}

/// How many bytes the dumps of the values have, each in a text of its own.
pub(crate) fn dumped_bytes(alloc: Global, values: &[Yaml]) -> Result<u64, EmitError> {
    let mut bytes: u64 = 0;
    for value in values {
        let mut text = Text::empty();
        let mut emitter = YamlEmitter::new(alloc, &mut text);
        emitter.dump(value)?;
        bytes = bytes.saturating_add(text.as_str().len() as u64);
    }
    Ok(bytes)
}
