//! The text of a whole literal.
ghost use Rattle.std.specs.Prelude.{◌≡◌, ◌∷◌, MatchResult};
ghost use Rattle.std.specs.Str.{chars};
ghost use Rattle.snap_text_literals.specs.Literal.{Inside, IsBody, IsRaw, literal_reads};
ghost use Rattle.snap_text_literals.specs.Refusal.{Refuses};

use crate::error::LiteralError;
use crate::hashes::{after_end, split_hashes};
use crate::units::read_unit;
use snap_content::Text;
use snap_content::characters::{after_character, split_first};
use std::alloc::Global;

/// After the first quote.
fn read_quoted(alloc: Global, source: &str) -> Result<Text, LiteralError>
    ensures { MatchResult result (λ text. Inside (chars source.now) text)
        (λ error. Refuses error (Inside (chars source.now))) }
{
    let mut made = Text::empty();
    let mut rest = source;
    while let Some((given, more)) = read_unit(rest) {
        if let Some(c) = given {
            if made.push(alloc, c).is_err() {
                return Err(LiteralError::OutOfMemory);
            }
        }
        rest = more;
    }
    match after_character(rest, '"') {
        Some(behind) => match split_first(behind) {
            None => Ok(made),
            Some(_) => Err(LiteralError::NotLiteral),
        },
        None => Err(LiteralError::NotLiteral),
    }
}

/// After the first quote of a raw literal with so many `#`.
fn read_body(alloc: Global, source: &str, count: usize) -> Result<Text, LiteralError>
    ensures { MatchResult result (λ text. IsBody count (chars source.now) text)
        (λ error. Refuses error (IsBody count (chars source.now))) }
{
    let mut made = Text::empty();
    let mut rest = source;
    while let Some((c, more)) = split_first(rest) {
        if let Some(behind) = after_end(rest, count) {
            return match split_first(behind) {
                None => Ok(made),
                Some(_) => Err(LiteralError::NotLiteral),
            };
        }
        if c == '\r' {
            return Err(LiteralError::NotLiteral);
        }
        if made.push(alloc, c).is_err() {
            return Err(LiteralError::OutOfMemory);
        }
        rest = more;
    }
    Err(LiteralError::NotLiteral)
}

/// After the `r` of a raw literal.
fn read_raw(alloc: Global, source: &str) -> Result<Text, LiteralError>
    ensures { MatchResult result (λ text. IsRaw (114 ∷ chars source.now) text)
        (λ error. Refuses error (IsRaw (114 ∷ chars source.now))) }
{
    let (count, rest) = split_hashes(source);
    match after_character(rest, '"') {
        Some(body) => read_body(alloc, body, count),
        None => Err(LiteralError::NotLiteral),
    }
}

/// The text of one string literal that is the whole source.
/// `NotLiteral` comes exactly where the grammar relates the source to no text.
pub fn read_literal(alloc: Global, source: &str) -> Result<Text, LiteralError>
    ensures { MatchResult result (λ text. literal_reads (chars source.now) text)
        (λ error. Refuses error (literal_reads (chars source.now))) }
{
    match split_first(source) {
        Some((first, rest)) => {
            if first == '"' {
                read_quoted(alloc, rest)
            } else if first == 'r' {
                read_raw(alloc, rest)
            } else {
                Err(LiteralError::NotLiteral)
            }
        }
        None => Err(LiteralError::NotLiteral),
    }
}
