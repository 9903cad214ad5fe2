//! What begins at a place.
ghost use Rattle.std.specs.Prelude.{◌≡◌, slice_index, if◌then◌else◌};
ghost use Rattle.snap_scan_tokens.specs.Characters.{is_blank_or_end, is_flow_sign};
ghost use Rattle.snap_scan.specs.Kinds.{is_alone, is_value, kind_of_sign, kind_of, Begins};

use snap_scan_tokens::characters::{is_blank_or_end, is_flow_sign};
use snap_scan_tokens::{Cursor, ScanInfo};

/// What begins at a token's place.
#[derive(Clone, Copy, Debug, PartialEq, Eq)]
pub enum TokenKind {
    StreamEnd,
    Directive,
    DocumentStart,
    DocumentEnd,
    FlowSequenceStart,
    FlowMappingStart,
    FlowSequenceEnd,
    FlowMappingEnd,
    FlowEntry,
    BlockEntry,
    Key,
    Value,
    Alias,
    Anchor,
    Tag,
    Literal,
    Folded,
    SingleQuoted,
    DoubleQuoted,
    Plain,
    /// A character that begins no token.
    Refused(ScanInfo),
}

/// What begins here. In flow a `:` right after a quoted scalar, at the index `adjacent`, ends a key.
pub fn kind_here(cursor: &Cursor, in_flow: bool, adjacent: usize) -> TokenKind
    ensures kind { result ≡ kind_of in_flow adjacent cursor.now }
    ensures begins { Begins result (slice_index cursor.now.left 0) }
{
    let first = cursor.ch();
    if first == '\0' {
        return TokenKind::StreamEnd;
    }
    if cursor.mark().col() == 0 && first == '%' {
        return TokenKind::Directive;
    }
    if cursor.is_document_start() {
        return TokenKind::DocumentStart;
    }
    if cursor.is_document_end() {
        return TokenKind::DocumentEnd;
    }
    kind_of_sign(cursor, in_flow, adjacent, first)
}

/// What begins here, by its first character.
fn kind_of_sign(cursor: &Cursor, in_flow: bool, adjacent: usize, first: char) -> TokenKind
    ensures { result ≡ kind_of_sign in_flow adjacent cursor.now first }
{
    match first {
        '[' => TokenKind::FlowSequenceStart,
        '{' => TokenKind::FlowMappingStart,
        ']' => TokenKind::FlowSequenceEnd,
        '}' => TokenKind::FlowMappingEnd,
        ',' => TokenKind::FlowEntry,
        '-' => or_plain(is_alone(cursor), TokenKind::BlockEntry),
        '?' => or_plain(is_alone(cursor), TokenKind::Key),
        ':' => or_plain(is_value(cursor, in_flow, adjacent), TokenKind::Value),
        '*' => TokenKind::Alias,
        '&' => TokenKind::Anchor,
        '!' => TokenKind::Tag,
        '|' => or_plain(!in_flow, TokenKind::Literal),
        '>' => or_plain(!in_flow, TokenKind::Folded),
        '\'' => TokenKind::SingleQuoted,
        '"' => TokenKind::DoubleQuoted,
        '%' => TokenKind::Refused(ScanInfo::S3),
        '@' => TokenKind::Refused(ScanInfo::S4),
        '`' => TokenKind::Refused(ScanInfo::S5),
        _ => TokenKind::Plain,
    }
}

fn or_plain(is_sign: bool, kind: TokenKind) -> TokenKind
    ensures { result ≡ (if is_sign then kind else TokenKind.Plain) }
{
    if is_sign { kind } else { TokenKind::Plain }
}

/// Whether a blank, a break or the end stands after the character here.
fn is_alone(cursor: &Cursor) -> bool
    ensures { result ≡ is_alone cursor.now.left }
{
    is_blank_or_end(cursor.peek(1))
}

/// Whether the `:` here ends a key.
fn is_value(cursor: &Cursor, in_flow: bool, adjacent: usize) -> bool
    ensures { result ≡ is_value in_flow adjacent cursor.now }
{
    is_alone(cursor)
        || (in_flow && (is_flow_sign(cursor.peek(1)) || cursor.mark().index() == adjacent))
}
