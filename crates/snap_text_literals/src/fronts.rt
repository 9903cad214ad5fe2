//! The literal with which a longer text begins. Nothing is copied.
ghost use Rattle.std.specs.Prelude.{◌≡◌, ◌∷◌, MatchOption};
ghost use Rattle.std.specs.Str.{chars};
ghost use Rattle.snap_text_literals.specs.Literal.{Inside, IsBody, IsRaw, literal_reads};
ghost use Rattle.snap_text_literals.specs.Fronts.{IsBehind, BeginsWithNone, HasLiteral};

use crate::hashes::{after_end, split_hashes};
use crate::units::read_unit;
use snap_content::characters::{after_character, split_first};

/// What follows a literal, from behind its first quote.
fn after_quoted(source: &str) -> Option<&str>
    ensures { MatchOption result (BeginsWithNone Inside (chars source.now))
        (λ rest. IsBehind Inside (chars source.now) (chars rest.now)) }
{
    let mut rest = source;
    while let Some((_, more)) = read_unit(rest) {
        rest = more;
    }
    match after_character(rest, '"') {
        Some(behind) => Some(behind),
        None => None,
    }
}

/// What follows a raw literal with so many `#`, from behind its first quote.
fn after_body(source: &str, count: usize) -> Option<&str>
    ensures { MatchOption result (BeginsWithNone (IsBody count) (chars source.now))
        (λ rest. IsBehind (IsBody count) (chars source.now) (chars rest.now)) }
{
    let mut rest = source;
    while let Some((c, more)) = split_first(rest) {
        if let Some(behind) = after_end(rest, count) {
            return Some(behind);
        }
        if c == '\r' {
            return None;
        }
        rest = more;
    }
    None
}

/// What follows a raw literal, from behind its `r`.
fn after_raw(source: &str) -> Option<&str>
    ensures { MatchOption result (BeginsWithNone IsRaw (114 ∷ chars source.now))
        (λ rest. IsBehind IsRaw (114 ∷ chars source.now) (chars rest.now)) }
{
    let (count, rest) = split_hashes(source);
    match after_character(rest, '"') {
        None => None,
        Some(body) => match after_body(body, count) {
            Some(behind) => Some(behind),
            None => None,
        },
    }
}

/// What follows the literal with which the source begins; none where it begins with none.
pub fn after_literal(source: &str) -> Option<&str>
    ensures { MatchOption result (BeginsWithNone literal_reads (chars source.now))
        (λ rest. IsBehind literal_reads (chars source.now) (chars rest.now)) }
{
    let (first, rest) = split_first(source)?;
    if first == '"' {
        return match after_quoted(rest) {
            Some(behind) => Some(behind),
            None => None,
        };
    }
    if first == 'r' {
        return match after_raw(rest) {
            Some(behind) => Some(behind),
            None => None,
        };
    }
    None
}

/// How many bytes the literal has with which the source begins; none where it begins with none.
pub fn literal_len(source: &str) -> Option<usize>
    ensures { MatchOption result (BeginsWithNone literal_reads (chars source.now))
        (λ bytes. HasLiteral (chars source.now) bytes) }
{
    match after_literal(source) {
        None => None,
        Some(rest) => Some(source.len() - rest.len()),
    }
}
