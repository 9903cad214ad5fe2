//! What the scanner makes of a text, as lines.
use crate::marks::{add_mark, add_refusal, add_style};
use rows::add_text_column;
use snap_content::{OutOfMemory, Text};
use snap_scan::{Scanner, Token, TokenType};
use std::alloc::Global;

/// A line for each token, `MARK NAME` and its fields; then `! MARK CODE` where the text is refused, and else `= MARK`,
/// the place that the scanner has come to. A mark is its index, line and column.
pub(crate) fn token_lines(alloc: Global, text: &str) -> Result<Text, OutOfMemory> {
    let mut lines = Text::empty();
    let mut scanner = Scanner::new(alloc, text);
    add_tokens(alloc, &mut lines, &mut scanner)?;
    match &scanner.get_error() {
        Some(error) => add_refusal(alloc, &mut lines, error)?,
        None => add_end(alloc, &mut lines, &scanner)?,
    }
    Ok(lines)
}

/// A line for each token that is to come.
fn add_tokens(alloc: Global, lines: &mut Text, scanner: &mut Scanner) -> Result<(), OutOfMemory> {
    'tokens: while let Some(token) = scanner.next() {
        add_token(alloc, lines, &token)?;
    }
    Ok(())
}

/// The line of the place that the scanner has come to.
fn add_end(alloc: Global, lines: &mut Text, scanner: &Scanner) -> Result<(), OutOfMemory> {
    lines.push_str(alloc, "= ")?;
    add_mark(alloc, lines, scanner.mark())?;
    lines.push_str(alloc, "\n")
}

fn add_token(alloc: Global, lines: &mut Text, token: &Token) -> Result<(), OutOfMemory> {
    add_mark(alloc, lines, token.0)?;
    lines.push_str(alloc, " ")?;
    lines.push_str(alloc, name(&token.1))?;
    add_fields(alloc, lines, &token.1)?;
    lines.push_str(alloc, "\n")
}

fn name(kind: &TokenType) -> &'static str {
    match kind {
        TokenType::StreamStart(_) => "StreamStart",
        TokenType::StreamEnd => "StreamEnd",
        TokenType::VersionDirective(_, _) => "VersionDirective",
        TokenType::TagDirective(_) => "TagDirective",
        TokenType::DocumentStart => "DocumentStart",
        TokenType::DocumentEnd => "DocumentEnd",
        TokenType::BlockSequenceStart => "BlockSequenceStart",
        TokenType::BlockMappingStart => "BlockMappingStart",
        TokenType::BlockEnd => "BlockEnd",
        TokenType::FlowSequenceStart => "FlowSequenceStart",
        TokenType::FlowSequenceEnd => "FlowSequenceEnd",
        TokenType::FlowMappingStart => "FlowMappingStart",
        TokenType::FlowMappingEnd => "FlowMappingEnd",
        TokenType::BlockEntry => "BlockEntry",
        TokenType::FlowEntry => "FlowEntry",
        TokenType::Key => "Key",
        TokenType::Value => "Value",
        TokenType::Alias(_) => "Alias",
        TokenType::Anchor(_) => "Anchor",
        TokenType::Tag(_) => "Tag",
        TokenType::Scalar(_, _) => "Scalar",
    }
}

/// Adds the fields of a token, a tab before each.
fn add_fields(alloc: Global, lines: &mut Text, kind: &TokenType) -> Result<(), OutOfMemory> {
    match kind {
        TokenType::VersionDirective(major, minor) => {
            let numbers = format!(in alloc; "\t{major}\t{minor}")?;
            lines.push_str(alloc, numbers.as_str())
        }
        TokenType::TagDirective(tag) | TokenType::Tag(tag) => {
            add_text_column(alloc, lines, tag.handle().as_str())?;
            add_text_column(alloc, lines, tag.suffix().as_str())
        }
        TokenType::Alias(name) | TokenType::Anchor(name) => add_text_column(
            alloc,
            lines,
            name.as_str(),
        ),
        TokenType::Scalar(style, scalar) => {
            add_style(alloc, lines, *style)?;
            add_text_column(alloc, lines, scalar.as_str())
        }
        _ => Ok(()),
    }
}
