//! Tokens: what a text is cut into.
use crate::marker::Marker;
use crate::tag::Tag;
use snap_content::{Lent, Text};

/// How the text is encoded.
#[derive(Clone, Copy, Debug, PartialEq, Eq)]
pub enum TEncoding {
    Utf8,
}

/// How a scalar is written.
#[derive(Clone, Copy, Debug, PartialEq, Eq)]
pub enum TScalarStyle {
    Plain,
    SingleQuoted,
    DoubleQuoted,
    /// After `|`.
    Literal,
    /// After `>`; the name is spelled as in insta.
    Foled,
}

/// What a token is.
#[derive(Debug, Drop, PartialEq, Eq)]
pub enum TokenType<'a> {
    StreamStart(TEncoding),
    StreamEnd,
    /// `%YAML`, with the two numbers of the version.
    VersionDirective(u32, u32),
    /// `%TAG`, with the handle and the prefix that it stands for. Both are empty at an unknown directive.
    TagDirective(Tag),
    DocumentStart,
    DocumentEnd,
    BlockSequenceStart,
    BlockMappingStart,
    BlockEnd,
    FlowSequenceStart,
    FlowSequenceEnd,
    FlowMappingStart,
    FlowMappingEnd,
    BlockEntry,
    FlowEntry,
    Key,
    Value,
    Alias(Text),
    Anchor(Text),
    /// The handle and what stands after it.
    Tag(Tag),
    Scalar(TScalarStyle, Lent<'a>),
}

/// A token, and the place where it begins.
#[derive(Debug, Drop, PartialEq, Eq)]
pub struct Token<'a>(pub Marker, pub TokenType<'a>);
