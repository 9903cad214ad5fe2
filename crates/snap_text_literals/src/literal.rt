//! How an inline text is written as a literal, and what is made of the text that a literal reads as.
//! The one error is out of memory.
ghost use Rattle.std.specs.Prelude.{◌≡◌, IfOk};
ghost use Rattle.std.specs.Str.{chars};
ghost use Rattle.snap_text_literals.specs.Inline.{inline_normal};
ghost use Rattle.snap_text_literals.specs.OfLiteral.{of_literal, is_open, ComesBack};
ghost use Rattle.snap_text_literals.specs.Spelled.{spelled};

use crate::holds::holds_hidden;
use crate::inline::{inline_normal_text, join_lines};
use crate::lines::is_short;
use crate::normal::trimmed_text;
use crate::spelling::spell;
use snap_content::characters::split_first;
use snap_content::{OutOfMemory, Text};
use snap_str::lines::next_line;
use std::alloc::Global;

/// The inline text of a literal that reads as this text: trimmed where that has at most one line or it holds
/// control characters, else its lines without a first one that is empty.
pub fn from_inline_literal(alloc: Global, contents: &str) -> Result<Text, OutOfMemory>
    ensures { IfOk result (λ made. made ≡ of_literal (chars contents.now)) }
{
    let trimmed = trimmed_text(contents);
    if is_short(trimmed) || holds_hidden(contents) {
        return Text::from_str(alloc, trimmed);
    }
    match next_line(contents) {
        None => Ok(Text::empty()),
        Some((line, more)) => match split_first(line) {
            Some(_) => join_lines(alloc, line, more, 0),
            None => match next_line(more) {
                None => Ok(Text::empty()),
                Some((next, behind)) => join_lines(alloc, next, behind, 0),
            },
        },
    }
}

/// Whether a literal that reads as this text has several lines and does not begin with an empty one.
pub fn literal_is_open(contents: &str) -> bool
    ensures { result ≡ is_open (chars contents.now) }
{
    if is_short(trimmed_text(contents)) || holds_hidden(contents) {
        return false;
    }
    match next_line(contents) {
        None => false,
        Some((line, _)) => match split_first(line) {
            None => false,
            Some(_) => true,
        },
    }
}

/// The literal of an inline text. Where the text's normal form is its own normal form and the indentation is of blanks and
/// tabs, the literal reads as a text that stands for a snapshot of that normal form.
pub fn to_inline(alloc: Global, text: &str, indentation: &str) -> Result<Text, OutOfMemory>
    ensures spelled { IfOk result (λ made. made
        ≡ spelled (chars indentation.now) (inline_normal (chars text.now))) }
    ensures law { IfOk result (λ made. ComesBack made (chars indentation.now) (chars text.now)) }
{
    let normal = inline_normal_text(alloc, text)?;
    spell(alloc, normal.as_str(), indentation)
}
