//! The formats in which a value is printed.

/// In which format a value is printed.
#[derive(Clone, Copy, Debug, PartialEq, Eq)]
pub enum SerializationFormat {
    /// YAML, as it stands in the body of a snapshot's file.
    Yaml,
    /// JSON with each element on a line of its own.
    Json,
    /// JSON on a single line where that has at most 120 characters, else as `Json`.
    JsonCompact,
}
