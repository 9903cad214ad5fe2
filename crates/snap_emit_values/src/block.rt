//! Literal blocks: which texts are written as one, and their sign and lines.
ghost use Rattle.std.specs.Prelude.{◌≡◌, ◌==◌, ◌++◌, OnOk, OnErr, not};
ghost use Rattle.std.specs.List.{list_any};
ghost use Rattle.std.specs.Str.{chars};
ghost use Rattle.snap_print.specs.Begun.{IsBegun};
ghost use Rattle.snap_print.specs.Blocks.{is_block, fits_block, begins_block, keeps_end, is_inside, is_unheld, block_sign, empty_lines, core, kept_ends};
ghost use Rattle.snap_emit_values.specs.Columns.{block_text, break_at, line_ends, shifted};
ghost use Rattle.snap_emit_values.specs.Places.{place};

use crate::blanks::break_line;
use crate::blocks::Blocks;
use crate::scalars::{push_run, push_word};
use memchr::{memchr, memchr2};
use snap_content::characters::{split_first, split_last};
use snap_content::{OutOfMemory, Text};
use snap_print::quotes::has_bad_end;
use snap_str::lines::split_line;
use std::alloc::Global;

/// Whether the text is written as a block, where it is an item or a value.
pub fn is_block(text: &str, blocks: Blocks) -> bool
    ensures { result ≡ is_block (place blocks) (chars text.now) }
{
    match blocks {
        Blocks::Off => false,
        Blocks::Inside | Blocks::End => fits_block(text),
        Blocks::Last => fits_block(text) && keeps_end(text),
    }
}

/// Whether a block can hold the text, which has several lines.
fn fits_block(text: &str) -> bool
    ensures { result ≡ fits_block (chars text.now) }
{
    holds_line_end(text) && begins_block(text) && is_held(text)
}

/// Whether the text holds a line's end.
fn holds_line_end(text: &str) -> bool
    ensures { result ≡ list_any (λ c. c == 10) (chars text.now) }
{
    memchr(b'\n', text.as_bytes()).is_some()
}

/// Whether the text begins with neither a blank nor a line's end: its first line tells how far in the block stands.
fn begins_block(text: &str) -> bool
    ensures { result ≡ begins_block (chars text.now) }
{
    match split_first(text) {
        None => false,
        Some((first, _)) => !matches!(first, ' ' | '\t' | '\n' | '\r'),
    }
}

/// Whether each character of the text is one that a block can hold.
fn is_held(text: &str) -> bool
    ensures { result ≡ not (list_any is_unheld (chars text.now)) }
{
    memchr2(b'\r', 0, text.as_bytes()).is_none()
}

/// Whether the end of the text is read again where white space there is lost: one line's end may follow it.
fn keeps_end(text: &str) -> bool
    ensures { result ≡ keeps_end (chars text.now) }
{
    let Some((front, last)) = split_last(text) else {
        return true;
    };
    if last == '\n' {
        return !has_bad_end(front);
    }
    !last.is_whitespace()
}

/// The text without the line ends at its end.
fn trim_line_ends(text: &str) -> &str
    ensures { chars result.now ≡ core (chars text.now) }
{
    let mut rest = text;
    while let Some((front, last)) = split_last(rest) {
        if last != '\n' {
            return rest;
        }
        rest = front;
    }
    rest
}

/// How many line ends the text has at its end, after the trimmed one.
fn count_line_ends(text: &str, trimmed: &str) -> usize
    requires { chars trimmed.now ≡ core (chars text.now) }
    ensures { result ≡ kept_ends (chars text.now) }
{
    text.len() - trimmed.len()
}

/// How many empty lines stand after a block whose text has so many line ends at its end.
fn empty_lines(kept: usize, blocks: Blocks) -> usize
    ensures { result ≡ empty_lines (is_inside (place blocks)) kept }
{
    if kept > 1 {
        return kept - 1;
    }
    if blocks.is_inside() { 1 } else { 0 }
}

/// Adds the sign of a block whose text has so many line ends at its end.
fn push_sign(out: &mut Text, alloc: Global, kept: usize) -> Result<(), OutOfMemory>
    ensures ok { OnOk result (out.new ≡ out.old ++ block_sign kept) }
    ensures err { OnErr result (IsBegun out.old out.new (block_sign kept)) }
{
    match kept {
        0 => push_word(out, alloc, "|-"),
        1 => push_word(out, alloc, "|"),
        _ => push_word(out, alloc, "|+"),
    }
}

/// Adds a line with its end, and the blanks of the next.
fn push_line(out: &mut Text, alloc: Global, column: usize, line: &str) -> Result<(), OutOfMemory>
    ensures ok { OnOk result (out.new ≡ out.old ++ (chars line.now ++ break_at column)) }
    ensures err { OnErr result (IsBegun out.old out.new (chars line.now ++ break_at column)) }
{
    push_run(out, alloc, line)?;
    break_line(out, alloc, column)
}

/// Adds a text, each further line after the blanks of the column. When out of memory, a beginning of that was added.
fn push_lines(out: &mut Text, alloc: Global, column: usize, text: &str) -> Result<(), OutOfMemory>
    ensures ok { OnOk result (out.new ≡ out.old ++ shifted column (chars text.now)) }
    ensures err { OnErr result (IsBegun out.old out.new (shifted column (chars text.now))) }
{
    let mut rest = text;
    'lines: while let Some((line, behind)) = split_line(rest) {
        push_line(out, alloc, column, line)?;
        rest = behind;
    }
    push_run(out, alloc, rest)
}

/// Adds so many line ends.
fn push_line_ends(out: &mut Text, alloc: Global, count: usize) -> Result<(), OutOfMemory>
    ensures ok { OnOk result (out.new ≡ out.old ++ line_ends count) }
    ensures err { OnErr result (IsBegun out.old out.new (line_ends count)) }
{
    for done in 0..count {
        out.push(alloc, '\n')?;
    }
    Ok(())
}

/// Adds the text as a block: the sign, the lines at the column, and empty lines. When out of memory, a beginning of that was added.
pub fn push_block(
    out: &mut Text,
    alloc: Global,
    column: usize,
    text: &str,
    blocks: Blocks,
) -> Result<(), OutOfMemory>
    ensures ok { OnOk result (out.new ≡ out.old ++ block_text column (place blocks) (chars text.now)) }
    ensures err { OnErr result (IsBegun out.old out.new
        (block_text column (place blocks) (chars text.now))) }
{
    let trimmed = trim_line_ends(text);
    let kept = count_line_ends(text, trimmed);
    push_sign(out, alloc, kept)?;
    break_line(out, alloc, column)?;
    push_lines(out, alloc, column, trimmed)?;
    push_line_ends(out, alloc, empty_lines(kept, blocks))
}
