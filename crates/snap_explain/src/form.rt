//! How findings are written.

/// How findings are written.
#[derive(Clone, Copy, Debug, PartialEq, Eq)]
pub enum Form {
    /// In words, for whoever reads them.
    Plain,
    /// As JSON, an object on each line, for programs.
    Json,
}
