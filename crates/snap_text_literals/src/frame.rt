//! The older form of an inline text, which loses the frame of insta's oldest format: each line after white space and a sign.
//! The one error is out of memory.
ghost use Rattle.std.specs.Prelude.{◌≡◌, ◌++◌, false, length, IfOk, OnOk, None, Some, MatchOption};
ghost use Rattle.std.specs.List.{flat_map, list_any, list_all};
ghost use Rattle.std.specs.Str.{chars, encode_utf8_all};
ghost use Rattle.snap_str.specs.Lines.{lines};
ghost use Rattle.snap_text_literals.specs.Frame.{last_line, is_framed, at_byte, is_space, breaks_frame, given, unframed, without_frame, is_stretched, inline_legacy};
ghost use Rattle.snap_text_literals.specs.Signed.{IsSigned};

use crate::holds::holds_line_end;
use crate::inline::inline_normal_text;
use crate::legacy::{without_breaks, without_fence};
use crate::lines::is_short;
use crate::normal::trimmed_text;
use snap_content::characters::{after_character, before_rest, begins_with};
use snap_content::{OutOfMemory, Text};
use snap_str::cut::last_part;
use snap_str::lines::next_line;
use snap_str::trim::trim_start;
use std::alloc::Global;

/// The white space in front of the sign, and what follows the sign; none where another character comes first.
fn split_sign(text: &str) -> Option<(&str, &str)>
    ensures { MatchOption result (is_framed (chars text.now) ≡ false)
        (λ parts. IsSigned (chars text.now) (chars parts.0.now) (chars parts.1.now)) }
{
    let body = trim_start(text);
    match after_character(body, '⋮') {
        None => None,
        Some(inside) => Some((before_rest(text, body), inside)),
    }
}

/// How many bytes stand after the last line end.
fn last_width(text: &str) -> usize
    ensures { result ≡ length (encode_utf8_all (last_line (chars text.now))) }
{
    last_part(text, '\n').len()
}

/// The line up to a byte and from it on; none where the line is shorter or no character begins there.
fn cut_at_byte(line: &str, byte: usize) -> Option<(&str, &str)>
    ensures { MatchOption result (at_byte byte (chars line.now) ≡ None)
        (λ parts. at_byte byte (chars line.now) ≡ Some (chars parts.0.now, chars parts.1.now)) }
{
    line.split_at_checked(byte)
}

fn is_space(text: &str) -> bool
    ensures { result ≡ is_space (chars text.now) }
{
    text.chars().all(|c| c.is_whitespace())
}

/// Whether a line below the first sign breaks the frame.
fn breaks_frame(line: &str, byte: usize) -> bool
    ensures { result ≡ breaks_frame byte (chars line.now) }
{
    match cut_at_byte(line, byte) {
        None => false,
        Some((front, rest)) => !is_space(front) || !(begins_with(rest, '⋮') || is_space(rest)),
    }
}

/// Whether one of the lines does.
fn some_breaks_frame(text: &str, byte: usize) -> bool
    ensures { result ≡ list_any (breaks_frame byte) (lines (chars text.now)) }
{
    let mut rest = text;
    while let Some((line, more)) = next_line(rest) {
        if breaks_frame(line, byte) {
            return true;
        }
        rest = more;
    }
    false
}

/// Adds what a line below the first sign gives.
fn push_given(alloc: Global, made: &mut Text, line: &str, byte: usize) -> Result<(), OutOfMemory>
    ensures { OnOk result (made.new ≡ made.old ++ given byte (chars line.now)) }
{
    match cut_at_byte(line, byte) {
        None => Ok(()),
        Some((_, rest)) => match after_character(rest, '⋮') {
            None => Ok(()),
            Some(inside) => {
                made.push_str(alloc, inside)?;
                made.push_ascii(alloc, "\n")
            }
        },
    }
}

/// Adds what the lines below the first sign give.
fn push_all_given(
    alloc: Global,
    made: &mut Text,
    text: &str,
    byte: usize,
) -> Result<(), OutOfMemory>
    ensures { OnOk result (made.new ≡ made.old ++ flat_map (given byte) (lines (chars text.now))) }
{
    let mut rest = text;
    while let Some((line, more)) = next_line(rest) {
        push_given(alloc, made, line, byte)?;
        rest = more;
    }
    Ok(())
}

/// The text from the first sign on, without the frame; empty where a line breaks it.
fn unframed(alloc: Global, text: &str, byte: usize) -> Result<Text, OutOfMemory>
    ensures { IfOk result (λ made. made ≡ unframed byte (lines (chars text.now))) }
{
    match next_line(text) {
        None => Ok(Text::empty()),
        Some((first, later)) => {
            if some_breaks_frame(later, byte) {
                return Ok(Text::empty());
            }
            let mut made = Text::from_str(alloc, first)?;
            made.push_ascii(alloc, "\n")?;
            push_all_given(alloc, &mut made, later, byte)?;
            Text::from_str(alloc, trimmed_text(made.as_str()))
        }
    }
}

/// The text without the frame, where it has one.
fn without_frame(alloc: Global, text: &str) -> Result<Text, OutOfMemory>
    ensures { IfOk result (λ made. made ≡ without_frame (chars text.now)) }
{
    match split_sign(text) {
        None => Text::from_str(alloc, text),
        Some((space, inside)) => unframed(alloc, inside, last_width(space)),
    }
}

/// Whether the text is one line that was stretched over several.
fn is_stretched(text: &str) -> bool
    ensures { result ≡ is_stretched (chars text.now) }
{
    holds_line_end(text) && is_short(trimmed_text(text))
}

/// The older form of an inline text.
pub fn inline_legacy_text(alloc: Global, text: &str) -> Result<Text, OutOfMemory>
    ensures { IfOk result (λ made. made ≡ inline_legacy (chars text.now)) }
{
    let normal = inline_normal_text(alloc, text)?;
    let older = without_frame(alloc, without_fence(without_breaks(normal.as_str())))?;
    if is_stretched(text) {
        Text::from_str(alloc, trim_start(older.as_str()))
    } else {
        Ok(older)
    }
}
