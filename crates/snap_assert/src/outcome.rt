//! What an assertion answers.
use snap_content::{Error, List, Text};

/// What became of a tree.
#[derive(Clone, Copy, Debug, PartialEq, Eq)]
pub enum Verdict {
    /// The file holds it.
    Passed,
    /// It was written to the file.
    Updated,
    /// It was written beside the file, for a review.
    Pending,
    /// Nothing was written.
    Rejected,
}

/// What an assertion noticed, beside its verdict.
#[derive(Debug, Drop)]
pub enum Warning {
    /// The file was read by the rule of the oldest format.
    LegacyFile,
    /// The header kept a number as a text.
    NumberAsText,
    /// A file is there that is not understood: it was refused with this error.
    Unreadable(Error),
    /// The tree passed, but only by the rule of the oldest format.
    LegacyContents,
    /// The first line of a literal of several lines is not empty.
    OpenLiteral,
    /// A literal in a doctest is not recorded.
    InlineInDoctest,
}

/// The warnings of an assertion, in the order of their kinds.
pub type Warnings = List<Warning>;

/// What an assertion answers.
#[derive(Debug, Drop)]
pub struct Outcome {
    pub verdict: Verdict,
    /// The path of the snapshot.
    pub path: Text,
    pub warnings: Warnings,
    /// Whether the answer fails a run: it is pending or rejected, and nothing says to pass anyway.
    pub fails: bool,
}
