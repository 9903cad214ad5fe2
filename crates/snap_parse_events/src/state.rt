//! Where a parser stands.
use snap_scan_tokens::TokenType;

/// Where a parser stands in an open stream.
#[derive(Clone, Copy, Debug, PartialEq, Eq)]
pub enum State {
    /// The first document, which may begin without a mark.
    ImplicitDocumentStart,
    DocumentStart,
    /// After `---`, where a document may be empty.
    DocumentContent,
    BlockNode,
    DocumentEnd,
    BlockSequenceEntry,
    IndentlessSequenceEntry,
    BlockMappingKey,
    BlockMappingValue,
    /// After the `:` of a value without a key.
    BlockMappingContent,
    FlowSequenceFirstEntry,
    FlowSequenceEntry,
    FlowSequenceEntryMappingKey,
    FlowSequenceEntryMappingValue,
    FlowSequenceEntryMappingEnd,
    FlowMappingFirstKey,
    FlowMappingKey,
    FlowMappingValue,
    /// After a key that has neither `?` nor `:`.
    FlowMappingEmptyValue,
}

/// How far a stream has come.
#[derive(Clone, Copy, Debug, PartialEq, Eq)]
pub enum Stage {
    Ahead,
    Open(State),
    Ended,
}

/// Which collections may begin where a node stands.
#[derive(Clone, Copy, Debug, PartialEq, Eq)]
pub enum Context {
    /// Those in flow alone.
    Flow,
    /// Those in blocks too.
    Block,
    /// Those in blocks too, and a sequence that has no indentation of its own.
    Indentless,
}

impl Context {
    ghost use Rattle.std.specs.Prelude.{◌≡◌};
    ghost use Rattle.snap_parse_events.specs.Context.{takes_blocks, takes_indentless};

    /// Whether a collection in blocks may begin.
    pub(crate) fn takes_blocks(self) -> bool
        ensures { result ≡ takes_blocks self }
    {
        matches!(self, Context::Block | Context::Indentless)
    }

    /// Whether a sequence may begin that has no indentation of its own.
    pub(crate) fn takes_indentless(self) -> bool
        ensures { result ≡ takes_indentless self }
    {
        matches!(self, Context::Indentless)
    }
}

/// Where a node may be empty: the tokens that stand after it there.
#[derive(Clone, Copy, Debug, PartialEq, Eq)]
pub enum Ends {
    Document,
    BlockEntry,
    IndentlessEntry,
    BlockPair,
    FlowKey,
    FlowValue,
    FlowPairValue,
}

impl Ends {
    ghost use Rattle.std.specs.Prelude.{◌≡◌};
    ghost use Rattle.snap_parse_events.specs.Ends.{ends_at};

    /// Whether a node is empty where such a token stands.
    pub(crate) fn has(self, kind: &TokenType<'_>) -> bool
        ensures { result ≡ ends_at self kind.now }
    {
        match self {
            Ends::Document => matches!(
                kind,
                TokenType::VersionDirective(..)
                    | TokenType::TagDirective(..)
                    | TokenType::DocumentStart
                    | TokenType::DocumentEnd
                    | TokenType::StreamEnd
            ),
            Ends::BlockEntry => matches!(kind, TokenType::BlockEntry | TokenType::BlockEnd),
            Ends::IndentlessEntry => matches!(
                kind,
                TokenType::BlockEntry | TokenType::Key | TokenType::Value | TokenType::BlockEnd
            ),
            Ends::BlockPair => matches!(
                kind,
                TokenType::Key | TokenType::Value | TokenType::BlockEnd
            ),
            Ends::FlowKey => matches!(
                kind,
                TokenType::Value | TokenType::FlowEntry | TokenType::FlowMappingEnd
            ),
            Ends::FlowValue => matches!(kind, TokenType::FlowEntry | TokenType::FlowMappingEnd),
            Ends::FlowPairValue => matches!(
                kind,
                TokenType::FlowEntry | TokenType::FlowSequenceEnd
            ),
        }
    }
}
