//! What a text holds.
ghost use Rattle.std.specs.Prelude.{◌≡◌, not};
ghost use Rattle.std.specs.List.{list_any};
ghost use Rattle.std.specs.Str.{chars};
ghost use Rattle.snap_text_literals.specs.Lines.{is_line_end, is_return};
ghost use Rattle.snap_text_literals.specs.Spelled.{is_control, is_hidden, is_marked};

use memchr::memchr;

pub fn is_control(c: char) -> bool
    ensures { result ≡ is_control c }
{
    let code = c as u32;
    code < 32 || (127 <= code && code <= 159)
}

/// Whether it is a control character other than a line end, a tab and an escape.
pub fn is_hidden(c: char) -> bool
    ensures { result ≡ is_hidden c }
{
    is_control(c) && !(c == '\n' || c == '\t' || c == '\u{1b}')
}

/// Whether the text holds such a character.
pub fn holds_hidden(text: &str) -> bool
    ensures { result ≡ list_any is_hidden (chars text.now) }
{
    text.chars().any(|c| is_hidden(c))
}

/// Whether the text holds a quote or a backslash.
pub fn holds_marked(text: &str) -> bool
    ensures { result ≡ list_any is_marked (chars text.now) }
{
    text.chars().any(|c| c == '\\' || c == '"')
}

/// Whether the text holds a line's end.
pub fn holds_line_end(text: &str) -> bool
    ensures { result ≡ list_any is_line_end (chars text.now) }
{
    text.chars().any(|c| c == '\n')
}

/// Whether no return stands in the text.
pub fn is_free_of_returns(text: &str) -> bool
    ensures { result ≡ not (list_any is_return (chars text.now)) }
{
    memchr(b'\r', text.as_bytes()).is_none()
}
