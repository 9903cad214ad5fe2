//! Snapshot files without a header, the oldest format: a first line that says nothing, lines that tell fields, a blank
//! line and the body.
ghost use Rattle.std.specs.Prelude.{◌≡◌, [], drop, IfOk, map, option_map};
ghost use Rattle.std.specs.Str.{chars};
ghost use Rattle.snap_str.specs.Lines.{ended_lines};
ghost use Rattle.snap_store.specs.FileSplit.{line_of, is_blank, before_blank, past_blank, behind_name, value_of, legacy_lines, legacy_body, legacy_field};
ghost use Rattle.snap_store.specs.Meta.{legacy_meta};
ghost use Rattle.snap_store.specs.Views.{meta_of};

use crate::metadata::MetaData;
use crate::split::{body_text, line_text};
use snap_content::characters::{after_character, is_same, split_first};
use snap_content::{OutOfMemory, Text};
use snap_str::lines::next_ended_line;
use snap_str::trim::trim_start;
use snap_text::normal::trimmed_text;
use std::alloc::Global;

/// The metadata that the lines before the first blank one tell. The one error is that memory is out.
pub fn legacy_metadata(alloc: Global, text: &str) -> Result<MetaData, OutOfMemory>
    ensures { IfOk result (λ made. meta_of made ≡ legacy_meta (chars text.now)) }
{
    let lines = behind_first_line(text);
    let source = read_field(alloc, lines, "source")?;
    let expression = read_field(alloc, lines, "expression")?;
    let mut metadata = MetaData::empty();
    metadata.set_source(source);
    metadata.set_expression(expression);
    Ok(metadata)
}

/// The lines after the first blank one, joined. The one error is that memory is out.
pub fn legacy_text(alloc: Global, text: &str) -> Result<Text, OutOfMemory>
    ensures { IfOk result (λ body. body ≡ legacy_body (chars text.now)) }
{
    body_text(alloc, behind_blank(behind_first_line(text)))
}

fn behind_first_line(text: &str) -> &str
    ensures { ended_lines (chars result.now) ≡ drop 1 (ended_lines (chars text.now)) }
{
    match next_ended_line(text) {
        None => text,
        Some((_, rest)) => rest,
    }
}

/// Whether the line is white space alone.
fn is_blank(line: &str) -> bool
    ensures { result ≡ is_blank (chars line.now) }
{
    is_same(trimmed_text(line), "")
}

/// What stands after the first blank line.
fn behind_blank(text: &str) -> &str
    ensures { map line_of (ended_lines (chars result.now))
        ≡ past_blank (map line_of (ended_lines (chars text.now))) }
{
    let mut rest = text;
    while let Some((piece, more)) = next_ended_line(rest) {
        rest = more;
        if is_blank(line_text(piece)) {
            return rest;
        }
    }
    rest
}

fn read_field(alloc: Global, text: &str, name: &str) -> Result<Option<Text>, OutOfMemory>
    ensures { IfOk result (λ value. value
        ≡ legacy_field (chars name.now) (before_blank (map line_of (ended_lines (chars text.now))))) }
{
    match last_field(text, name) {
        None => Ok(None),
        Some(value) => Ok(Some(Text::from_str(alloc, value)?)),
    }
}

/// The value of the last line, of those before the first blank one, that names the field.
fn last_field<'a>(text: &'a str, name: &str) -> Option<&'a str>
    ensures { option_map (λ value. chars value.now) result
        ≡ legacy_field (chars name.now) (before_blank (map line_of (ended_lines (chars text.now)))) }
{
    let mut found = None;
    let mut rest = text;
    while let Some((piece, more)) = next_ended_line(rest) {
        let line = line_text(piece);
        if is_blank(line) {
            return found;
        }
        found = field_value(line, name).or(found);
        rest = more;
    }
    found
}

/// The value of the field, where the line names it.
fn field_value<'a>(line: &'a str, name: &str) -> Option<&'a str>
    ensures { option_map (λ value. chars value.now) result
        ≡ option_map value_of (behind_name (chars name.now) (chars line.now)) }
{
    match behind_name(line, name) {
        None => None,
        Some(value) => Some(trimmed_text(trim_start(value))),
    }
}

/// What stands after the name and a colon, where the line begins with them. The name is in small letters.
fn behind_name<'a>(line: &'a str, name: &str) -> Option<&'a str>
    ensures { option_map (λ rest. chars rest.now) result
        ≡ behind_name (chars name.now) (chars line.now) }
{
    let mut rest = line;
    let mut letters = name;
    while let Some((letter, others)) = split_first(letters) {
        let (character, more) = split_first(rest)?;
        if character.to_ascii_lowercase() != letter {
            return None;
        }
        rest = more;
        letters = others;
    }
    after_character(rest, ':')
}
