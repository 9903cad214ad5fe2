//! The normal form of an inline text. The one error is out of memory.
ghost use Rattle.std.specs.Prelude.{◌≡◌, ◌++◌, ◌∷◌, length, IfOk, OnOk};
ghost use Rattle.std.specs.List.{flat_map};
ghost use Rattle.std.specs.Str.{chars};
ghost use Rattle.snap_str.specs.Lines.{lines};
ghost use Rattle.snap_text_literals.specs.Inline.{behind_end, joined_from, indentation_of, normalized, inline_normal, inline_width};

use crate::lines::{from_byte, is_short, lead};
use crate::normal::{normal_text, trimmed_text};
use snap_content::characters::split_first;
use snap_content::{OutOfMemory, Text};
use snap_str::lines::next_line;
use std::alloc::Global;

/// Of the lines of the trimmed text that have a character, the first shortest lead.
fn shortest_lead(text: &str) -> &str
    ensures text { chars result.now ≡ indentation_of (chars text.now) }
    ensures bytes { length result.now ≡ length (indentation_of (chars text.now)) }
{
    let mut best = "";
    let mut found = false;
    let mut rest = trimmed_text(text);
    while let Some((line, more)) = next_line(rest) {
        if let Some(_) = split_first(line) {
            let here = lead(line);
            if !found || here.len() < best.len() {
                best = here;
                found = true;
            }
        }
        rest = more;
    }
    best
}

/// The blanks and tabs that begin the least indented line of the text, white space at its end aside.
pub fn min_indentation(alloc: Global, text: &str) -> Result<Text, OutOfMemory>
    ensures { IfOk result (λ made. made ≡ indentation_of (chars text.now)) }
{
    Text::from_str(alloc, shortest_lead(text))
}

/// Adds each line, from a byte on, after a line end.
fn push_lines(alloc: Global, made: &mut Text, text: &str, byte: usize) -> Result<(), OutOfMemory>
    ensures { OnOk result (made.new ≡ made.old
        ++ flat_map (behind_end byte) (lines (chars text.now))) }
{
    let mut rest = text;
    while let Some((line, more)) = next_line(rest) {
        made.push_ascii(alloc, "\n")?;
        made.push_str(alloc, from_byte(line, byte))?;
        rest = more;
    }
    Ok(())
}

/// A line and the lines of a text, each from a byte on.
pub(crate) fn join_lines(
    alloc: Global,
    line: &str,
    more: &str,
    byte: usize,
) -> Result<Text, OutOfMemory>
    ensures { IfOk result (λ made. made ≡ joined_from byte
        (chars line.now ∷ lines (chars more.now))) }
{
    let mut made = Text::from_str(alloc, from_byte(line, byte))?;
    push_lines(alloc, &mut made, more, byte)?;
    Ok(made)
}

/// The text without the indentation that all its lines share.
pub fn normalize_inline(alloc: Global, text: &str) -> Result<Text, OutOfMemory>
    ensures { IfOk result (λ made. made ≡ normalized (chars text.now)) }
{
    let trimmed = trimmed_text(text);
    if is_short(trimmed) {
        return Text::from_str(alloc, trimmed);
    }
    let byte = shortest_lead(text).len();
    match next_line(text) {
        None => Ok(Text::empty()),
        Some((line, more)) => join_lines(alloc, line, more, byte),
    }
}

/// The normal form: without the shared indentation, and then as for any text.
pub fn inline_normal_text(alloc: Global, text: &str) -> Result<Text, OutOfMemory>
    ensures { IfOk result (λ made. made ≡ inline_normal (chars text.now)) }
{
    let normalized = normalize_inline(alloc, text)?;
    normal_text(alloc, normalized.as_str())
}

/// How many bytes the normal form leaves out at the start of each line.
pub fn inline_width(text: &str) -> usize
    ensures { result ≡ inline_width (chars text.now) }
{
    if is_short(trimmed_text(text)) {
        0
    } else {
        shortest_lead(text).len()
    }
}
