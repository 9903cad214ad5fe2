//! The numbers that stand in a text, as pieces of it: what a refusal for a number is held against.
ghost use Rattle.std.specs.Prelude.{◌≡◌, ◌<◌, false, length, IfOk, IfSome, MatchOption};
ghost use Rattle.std.specs.List.{list_any};
ghost use Rattle.std.specs.Str.{chars};
ghost use Rattle.snap_yaml.specs.View.{value_of};
ghost use Rattle.snap_emit.specs.Parsed.{IsErrorOf};
ghost use Rattle.snap_emit.specs.Pieces.{ends_piece, IsPieceThen, is_beyond, is_number_piece, has_number_piece};

use crate::refusal::Refusal;
use crate::whole::is_whole;
use snap_content::characters::{before_rest, split_first};
use snap_content::{Error, OutOfMemory, Text};
use snap_parse::Yaml;
use std::alloc::Global;

fn ends_piece(c: char) -> bool
    ensures { result ≡ ends_piece c }
{
    matches!(
        c,
        ' ' | '\t' | '\n' | '\r' | '\0' | ',' | ':' | '[' | ']' | '{' | '}'
    )
}

/// The first piece, and the text from what ends it on; none where nothing ends it, so that it is the whole text.
fn split_piece(text: &str) -> Option<(&str, &str)>
    ensures cut { MatchOption result (list_any ends_piece (chars text.now) ≡ false)
        (λ p. IsPieceThen (chars text.now) (chars p.0.now) (chars p.1.now)) }
    ensures shorter { IfSome result (λ p. length (chars p.1.now) < length (chars text.now)) }
{
    let mut rest = text;
    while let Some((c, more)) = split_first(rest) {
        if ends_piece(c) {
            return Some((before_rest(text, rest), more));
        }
        rest = more;
    }
    None
}

/// Whether the value is a number, and no whole number of 128 bits.
fn is_beyond(value: &Yaml) -> bool
    ensures { result ≡ is_beyond (value_of value.now) }
{
    match value {
        Yaml::Real(text) => !is_whole(text.as_str()),
        Yaml::Integer(_) => false,
        Yaml::String(_) => false,
        Yaml::Boolean(_) => false,
        Yaml::Array(_) => false,
        Yaml::Hash(_) => false,
        Yaml::Null => false,
        Yaml::BadValue => false,
    }
}

/// Whether the piece is a number, and no whole number of 128 bits.
fn is_number_piece(alloc: Global, piece: &str) -> Result<bool, OutOfMemory>
    ensures { IfOk result (λ is. is ≡ is_number_piece (chars piece.now)) }
{
    Ok(is_beyond(&Yaml::from_str(alloc, piece)?))
}

/// Whether such a number is a piece of the text.
fn has_number_piece(alloc: Global, text: &str) -> Result<bool, OutOfMemory>
    ensures { IfOk result (λ has. has ≡ has_number_piece (chars text.now)) }
{
    let mut rest = text;
    while let Some((piece, more)) = split_piece(rest) {
        if is_number_piece(alloc, piece)? {
            return Ok(true);
        }
        rest = more;
    }
    is_number_piece(alloc, rest)
}

/// The refusal of a text for a number that is no whole number of 128 bits. It is named where it stands in the text.
pub(crate) fn number_refusal(alloc: Global, text: &str, path: &Text) -> Result<Error, OutOfMemory>
    ensures { IfOk result (λ error. IsErrorOf (chars text.now) path.now Refusal.Number error) }
{
    let path = path.try_clone(alloc)?;
    if has_number_piece(alloc, text)? {
        Ok(Error::FloatText(path))
    } else {
        Ok(Error::FailedParsingYaml(path))
    }
}
