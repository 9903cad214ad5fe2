//! Events: what a parser makes of tokens.
use snap_content::Lent;
use snap_scan_tokens::{TScalarStyle, Tag};

/// What a parser gives. The numbers are those of anchors, from 1, and 0 at a node without one.
#[derive(Debug, Drop, PartialEq, Eq)]
pub enum Event<'a> {
    StreamStart,
    StreamEnd,
    DocumentStart,
    DocumentEnd,
    /// The node of an anchor again.
    Alias(usize),
    /// The text, how it is written, its anchor and its tag.
    Scalar(Lent<'a>, TScalarStyle, usize, Option<Tag>),
    SequenceStart(usize),
    SequenceEnd,
    MappingStart(usize),
    MappingEnd,
}
