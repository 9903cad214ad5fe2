//! The characters and escapes of a literal.
ghost use Rattle.std.specs.Prelude.{◌≡◌, ◌<◌, ◌≤◌, [], ◌∷◌, Some, length, IfSome, MatchOption, option_to_list};
ghost use Rattle.std.specs.Str.{chars};
ghost use Rattle.snap_text_literals.specs.Units.{past_blanks, lettered, hexadecimal, braced, unicode, escape, unit_of};

use snap_content::characters::{after_character, split_first};

/// The text without the blanks, tabs and line ends at its front.
fn past_blanks(text: &str) -> &str
    ensures same { chars result.now ≡ past_blanks (chars text.now) }
    ensures bound { length (chars result.now) ≤ length (chars text.now) }
{
    let mut rest = text;
    while let Some((c, more)) = split_first(rest) {
        if c != ' ' && c != '\t' && c != '\n' {
            return rest;
        }
        rest = more;
    }
    rest
}

/// The character of an escape of one letter.
fn lettered(letter: char) -> Option<char>
    ensures { result ≡ lettered letter }
{
    match letter {
        '0' => Some('\0'),
        't' => Some('\t'),
        'n' => Some('\n'),
        'r' => Some('\r'),
        '"' => Some('"'),
        '\'' => Some('\''),
        '\\' => Some('\\'),
        _ => None,
    }
}

/// After `\x`: the character of two digits below 80, and what follows.
fn read_hexadecimal(source: &str) -> Option<(char, &str)>
    ensures unit { MatchOption result (hexadecimal (chars source.now) ≡ None)
        (λ p. hexadecimal (chars source.now) ≡ Some (p.0 ∷ [], chars p.1.now)) }
    ensures shorter { IfSome result (λ p. length (chars p.1.now) < length (chars source.now)) }
{
    let (high, rest) = split_first(source)?;
    let (low, rest) = split_first(rest)?;
    let high = high.to_digit(8)?;
    let low = low.to_digit(16)?;
    let code = char::from_u32(high * 16 + low)?;
    Some((code, rest))
}

/// After `\u{`: the character of one to six digits, and what follows the brace after them.
fn read_braced(source: &str) -> Option<(char, &str)>
    ensures unit { MatchOption result (braced 0 0 (chars source.now) ≡ None)
        (λ p. braced 0 0 (chars source.now) ≡ Some (p.0 ∷ [], chars p.1.now)) }
    ensures shorter { IfSome result (λ p. length (chars p.1.now) < length (chars source.now)) }
{
    let mut rest = source;
    let mut count: u32 = 0;
    let mut value: u32 = 0;
    while let Some((c, more)) = split_first(rest) {
        if c == '}' {
            if count == 0 {
                return None;
            }
            let code = char::from_u32(value)?;
            return Some((code, more));
        }
        if count == 6 {
            return None;
        }
        let digit = c.to_digit(16)?;
        value = value * 16 + digit;
        count += 1;
        rest = more;
    }
    None
}

/// After `\u`.
fn read_unicode(source: &str) -> Option<(char, &str)>
    ensures unit { MatchOption result (unicode (chars source.now) ≡ None)
        (λ p. unicode (chars source.now) ≡ Some (p.0 ∷ [], chars p.1.now)) }
    ensures shorter { IfSome result (λ p. length (chars p.1.now) < length (chars source.now)) }
{
    let rest = after_character(source, '{')?;
    read_braced(rest)
}

/// After a backslash: what the escape gives, and what follows it.
fn read_escape(source: &str) -> Option<(Option<char>, &str)>
    ensures unit { MatchOption result (escape (chars source.now) ≡ None)
        (λ p. escape (chars source.now) ≡ Some (option_to_list p.0, chars p.1.now)) }
    ensures shorter { IfSome result (λ p. length (chars p.1.now) < length (chars source.now)) }
{
    let (mark, rest) = split_first(source)?;
    if mark == 'x' {
        let (code, rest) = read_hexadecimal(rest)?;
        return Some((Some(code), rest));
    }
    if mark == 'u' {
        let (code, rest) = read_unicode(rest)?;
        return Some((Some(code), rest));
    }
    if mark == '\n' {
        return Some((None, past_blanks(rest)));
    }
    let code = lettered(mark)?;
    Some((Some(code), rest))
}

/// A character that stands for itself or an escape: what it gives, and what follows it.
pub fn read_unit(source: &str) -> Option<(Option<char>, &str)>
    ensures unit { MatchOption result (unit_of (chars source.now) ≡ None)
        (λ p. unit_of (chars source.now) ≡ Some (option_to_list p.0, chars p.1.now)) }
    ensures shorter { IfSome result (λ p. length (chars p.1.now) < length (chars source.now)) }
{
    let (first, rest) = split_first(source)?;
    if first == '\\' {
        return read_escape(rest);
    }
    if first == '"' || first == '\r' {
        return None;
    }
    Some((Some(first), rest))
}
