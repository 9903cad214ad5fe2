//! Kinds of characters, and the characters of a text one by one.
ghost use Rattle.std.specs.Prelude.{◌≡◌, ◌≢◌, true, ℕ, List, [], ◌∷◌, MatchOption, slice_index};
ghost use Rattle.std.specs.Str.{chars};
ghost use Rattle.snap_scan_tokens.specs.Place.{before_nul};
ghost use Rattle.snap_scan_tokens.specs.Characters.{is_break, is_blank, is_break_or_end, is_blank_or_end, is_flow_sign, is_digit, is_alpha, is_uri, is_of};

use snap_content::characters::split_first;
use snap_str::cut::split_at_byte;

/// The kinds of characters that are passed in runs.
#[derive(Clone, Copy, Debug, PartialEq, Eq)]
pub enum Kind {
    /// Spaces and tabs.
    Blank,
    /// Spaces alone.
    Space,
    /// All that stands before the end of the line.
    InLine,
    /// Letters and digits of ASCII, `_` and `-`.
    Alpha,
    /// What may stand in a tag besides `%`.
    Uri,
    /// Decimal digits.
    Digit,
    /// What neither ends nor folds a plain scalar, whatever stands after it.
    Word,
    /// What stands for itself in single quotes.
    SingleQuoted,
    /// What stands for itself in double quotes.
    DoubleQuoted,
}

/// Whether a character ends a line.
pub fn is_break(c: char) -> bool
    ensures { result ≡ is_break c }
{
    c == '\n' || c == '\r'
}

/// Whether a character is a space or a tab.
pub fn is_blank(c: char) -> bool
    ensures { result ≡ is_blank c }
{
    c == ' ' || c == '\t'
}

/// Whether the line or the text ends at a character.
pub fn is_break_or_end(c: char) -> bool
    ensures { result ≡ is_break_or_end c }
{
    is_break(c) || c == '\0'
}

/// Whether a word ends at a character, or the line or the text.
pub fn is_blank_or_end(c: char) -> bool
    ensures { result ≡ is_blank_or_end c }
{
    is_blank(c) || is_break_or_end(c)
}

/// Whether a character is one of the signs of flow collections.
pub fn is_flow_sign(c: char) -> bool
    ensures { result ≡ is_flow_sign c }
{
    matches!(c, ',' | '[' | ']' | '{' | '}')
}

/// Whether a character is a decimal digit.
pub fn is_digit(c: char) -> bool
    ensures { result ≡ is_digit c }
{
    c >= '0' && c <= '9'
}

/// Whether a character may stand in the name of an anchor or a directive.
pub fn is_alpha(c: char) -> bool
    ensures { result ≡ is_alpha c }
{
    is_digit(c) || (c >= 'a' && c <= 'z') || (c >= 'A' && c <= 'Z') || c == '_' || c == '-'
}

/// Whether a character may stand in a tag for itself.
pub fn is_uri(c: char) -> bool
    ensures { result ≡ is_uri c }
{
    is_alpha(c)
        || matches!(
            c,
            ';' | '/'
                | '?'
                | ':'
                | '@'
                | '&'
                | '='
                | '+'
                | '$'
                | ','
                | '.'
                | '!'
                | '~'
                | '*'
                | '\''
                | '('
                | ')'
                | '['
                | ']'
        )
}

impl Kind {
    /// Whether a character is of this kind. No kind has the line feed.
    pub fn has(self, c: char) -> bool
        ensures value { result ≡ is_of self c }
        ensures in_line { result ≡ true → c ≢ 10 }
    {
        match self {
            Kind::Blank => is_blank(c),
            Kind::Space => c == ' ',
            Kind::InLine => !is_break_or_end(c),
            Kind::Alpha => is_alpha(c),
            Kind::Uri => is_uri(c),
            Kind::Digit => is_digit(c),
            Kind::Word => !(is_blank_or_end(c) || is_flow_sign(c) || c == ':'),
            Kind::SingleQuoted => !(is_blank_or_end(c) || c == '\''),
            Kind::DoubleQuoted => !(is_blank_or_end(c) || c == '"' || c == '\\'),
        }
    }
}

/// The character at a place, and NUL past the end.
pub fn character_at(text: &str, place: usize) -> char
    ensures { result ≡ slice_index (chars text.now) place }
{
    match split_first(text) {
        None => '\0',
        Some((first, rest)) => {
            if place == 0 {
                first
            } else {
                character_at(rest, place - 1)
            }
        }
    }
}

/// What stands before the first NUL.
pub fn before_nul(text: &str) -> &str
    ensures { chars result.now ≡ before_nul (chars text.now) }
{
    match split_at_byte(text, 0) {
        None => text,
        Some((before, _)) => before,
    }
}
