//! A look at a document's characters alone.
ghost use Rattle.std.specs.Prelude.{◌≡◌, ◌<◌, ◌∷◌, [], length, IfSome, MatchOption};
ghost use Rattle.std.specs.List.{list_any};
ghost use Rattle.std.specs.Str.{chars};
ghost use Rattle.snap_explain_scalars.specs.Parts.{ends_otherwise, is_cut, is_sign, last_word, parts_in, word_follows};

use crate::elsewhere::read_elsewhere;
use snap_content::characters::{before_rest, split_first};
use snap_str::cut::last_part;
use snap_str::trim::trim_end;

/// Whether a plain scalar may end before the character, blanks aside.
fn is_sign(c: char) -> bool
    ensures { result ≡ is_sign c }
{
    matches!(
        c,
        '\n' | '\r' | '\0' | '\t' | ',' | '[' | ']' | '{' | '}' | ':' | '#'
    )
}

/// Whether the text begins with a letter or a digit.
fn word_follows(text: &str) -> bool
    ensures { result ≡ word_follows (chars text.now) }
{
    match split_first(text) {
        None => false,
        Some((first, _)) => first.is_ascii_alphanumeric(),
    }
}

/// Whether a part ends at the character, which this text follows. The colon of `12:30` ends none, so that a document with times in
/// quotes isn't parsed for them.
fn is_cut(c: char, text: &str) -> bool
    ensures { result ≡ is_cut c (chars text.now) }
{
    is_sign(c) && !(c == ':' && word_follows(text))
}

/// What stands before the first cut, and what follows it.
fn split_part(text: &str) -> Option<(&str, &str)>
    ensures part { MatchOption result (parts_in (chars text.now) ≡ chars text.now ∷ [])
        (λ parts. parts_in (chars text.now)
        ≡ chars parts.0.now ∷ parts_in (chars parts.1.now)) }
    ensures shorter { IfSome result (λ parts.
        length (chars parts.1.now) < length (chars text.now)) }
{
    let mut rest = text;
    while let Some((c, next)) = split_first(rest) {
        if is_cut(c, next) {
            return Some((before_rest(text, rest), next));
        }
        rest = next;
    }
    None
}

/// The last word of a part, which a space or a colon may stand before.
fn last_word(part: &str) -> &str
    ensures { chars result.now ≡ last_word (chars part.now) }
{
    last_part(last_part(trim_end(part), ' '), ':')
}

/// Whether the last word of a part is one that is told.
fn ends_otherwise(part: &str) -> bool
    ensures { result ≡ ends_otherwise (chars part.now) }
{
    read_elsewhere(last_word(part)).is_some()
}

/// Whether a part of the document ends with a word that is told. A document without such a part has no such scalar.
pub(crate) fn may_hold(document: &str) -> bool
    ensures { result ≡ list_any ends_otherwise (parts_in (chars document.now)) }
{
    let mut rest = document;
    while let Some((part, next)) = split_part(rest) {
        if ends_otherwise(part) {
            return true;
        }
        rest = next;
    }
    ends_otherwise(rest)
}
