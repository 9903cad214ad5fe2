//! A text at its line's ends, and its lines: what they begin with, and what stands from a byte on.
ghost use Rattle.std.specs.Prelude.{◌≡◌, ◌<◌, length, IfSome, MatchOption};
ghost use Rattle.std.specs.Str.{chars};
ghost use Rattle.snap_str.specs.Lines.{lines};
ghost use Rattle.snap_text_literals.specs.Lines.{IsUnbroken, IsLineThen, without_returns};
ghost use Rattle.snap_text_literals.specs.Inline.{lead, from_byte, is_short};

use snap_content::characters::{before_rest, split_first, split_last};
use snap_str::lines::{self, next_line};

/// The first line without its end, and what follows; none where the text holds no line's end.
pub fn split_line(text: &str) -> Option<(&str, &str)>
    ensures line { MatchOption result (IsUnbroken (chars text.now))
        (λ p. IsLineThen (chars text.now) (chars p.0.now) (chars p.1.now)) }
    ensures shorter { IfSome result (λ p. length (chars p.1.now) < length (chars text.now)) }
{
    lines::split_line(text)
}

/// The text without the returns at its end.
pub fn trim_returns(text: &str) -> &str
    ensures { chars result.now ≡ without_returns (chars text.now) }
{
    let mut rest = text;
    while let Some((front, last)) = split_last(rest) {
        if last != '\r' {
            return rest;
        }
        rest = front;
    }
    rest
}

/// Whether the text has at most one line.
pub fn is_short(text: &str) -> bool
    ensures { result ≡ is_short (lines (chars text.now)) }
{
    match next_line(text) {
        None => true,
        Some((_, more)) => match next_line(more) {
            None => true,
            Some(_) => false,
        },
    }
}

/// The blanks and tabs that the line begins with.
pub fn lead(line: &str) -> &str
    ensures text { chars result.now ≡ lead (chars line.now) }
    ensures bytes { length result.now ≡ length (lead (chars line.now)) }
{
    let mut rest = line;
    while let Some((c, more)) = split_first(rest) {
        if c != ' ' && c != '\t' {
            return before_rest(line, rest);
        }
        rest = more;
    }
    before_rest(line, rest)
}

/// The line from a byte on, and nothing where no character begins there.
pub fn from_byte(line: &str, byte: usize) -> &str
    ensures { chars result.now ≡ from_byte byte (chars line.now) }
{
    let mut rest = line;
    let mut left = byte;
    while let Some((c, more)) = split_first(rest) {
        if left == 0 {
            return rest;
        }
        let width = c.len_utf8();
        if left < width {
            return "";
        }
        left -= width;
        rest = more;
    }
    rest
}
