//! Keys in quotes.
ghost use Rattle.std.specs.Prelude.{◌≡◌, ◌<◌, ◌≤◌, ◌≢◌, ◌∷◌, [], ◌++◌, ◌⊎◌, ℕ, List, length, IfOk, IfSome, MatchOption};
ghost use Rattle.std.specs.Str.{chars};
ghost use Rattle.snap_select.specs.Pieces.{past, front, is_plain, Fails};
ghost use Rattle.snap_select.specs.Reading.{outcome, inside, in_quotes, closing, refuses};
ghost use Rattle.snap_select.specs.Parts.{Parts};
ghost use Rattle.snap_select.specs.declared.segment.Segment.TheVariants.{Key};
ghost use Rattle.snap_select.specs.declared.fault.SelectFault.TheVariants.{BadToken};
ghost use Rattle.snap_select.specs.declared.segment.Segment.{Segment};

use snap_content::characters::{after_character, before_rest, split_first};
use snap_content::{Lent, OutOfMemory, Text};
use std::alloc::Global;

/// What is left after the characters that are no quote and no backslash.
fn past_plain(text: &str) -> &str
    ensures { chars result.now ≡ past is_plain (chars text.now) }
{
    let mut rest = text;
    while let Some((c, more)) = split_first(rest) {
        if c == '"' || c == '\\' {
            return rest;
        }
        rest = more;
    }
    rest
}

/// The characters before the first quote, and what follows the quote; none where a backslash stands before
/// it, or no quote is there.
fn split_plain(text: &str) -> Option<(&str, &str)>
    ensures plain { IfSome result (λ p. chars p.0.now ≡ front is_plain (chars text.now)) }
    ensures rest { IfSome result (λ p. past is_plain (chars text.now) ≡ 34 ∷ chars p.1.now) }
{
    let quote = past_plain(text);
    let rest = after_character(quote, '"')?;
    Some((before_rest(text, quote), rest))
}

/// The character that is kept, and what follows: the one after a backslash, or the character itself.
fn kept_character<'a>(character: char, text: &'a str) -> Option<(char, &'a str)>
    requires { character ≢ 34 }
    ensures kept { (ps : Parts) (ss : List Segment) (key : List ℕ)
        → MatchOption result (outcome (inside ps ss (in_quotes key)) (character ∷ chars text.now)
        ≡ refuses BadToken 0)
        (λ p. outcome (inside ps ss (in_quotes key)) (character ∷ chars text.now)
        ≡ outcome (inside ps ss (in_quotes (key ++ p.0 ∷ []))) (chars p.1.now)) }
    ensures shorter { IfSome result (λ p. length (chars p.1.now) ≤ length (chars text.now)) }
{
    if character == '\\' {
        return split_first(text);
    }
    Some((character, text))
}

/// The key up to the first quote without a backslash, and what follows; none where no such quote is there.
fn read_escaped(alloc: Global, text: &str) -> Result<Option<(Text, &str)>, OutOfMemory>
    ensures key { IfOk result (λ found. (ps : Parts) (ss : List Segment)
        → MatchOption found
        (outcome (inside ps ss (in_quotes [])) (chars text.now) ≡ refuses BadToken 0)
        (λ p. outcome (inside ps ss (in_quotes [])) (chars text.now)
        ≡ outcome (inside ps ss (closing (Key p.0))) (chars p.1.now))) }
    ensures shorter { IfOk result (λ found. IfSome found
        (λ p. length (chars p.1.now) < length (chars text.now))) }
{
    let mut key = Text::empty();
    let mut rest = text;
    while let Some((c, more)) = split_first(rest) {
        if c == '"' {
            return Ok(Some((key, more)));
        }
        let Some((kept, later)) = kept_character(c, more) else {
            return Ok(None);
        };
        key.push(alloc, kept)?;
        rest = later;
    }
    Ok(None)
}

/// The key after an opening quote, and what follows the closing one; none where that is missing.
pub(crate) fn read_quoted<'a>(
    alloc: Global,
    text: &'a str,
) -> Result<Option<(Lent<'a>, &'a str)>, OutOfMemory>
    ensures key { IfOk result (λ found. (ps : Parts) (ss : List Segment)
        → MatchOption found
        (outcome (inside ps ss (in_quotes [])) (chars text.now) ≡ refuses BadToken 0)
        (λ p. outcome (inside ps ss (in_quotes [])) (chars text.now)
        ≡ outcome (inside ps ss (closing (Key p.0))) (chars p.1.now))) }
    ensures shorter { IfOk result (λ found. IfSome found
        (λ p. length (chars p.1.now) < length (chars text.now))) }
{
    if let Some((key, rest)) = split_plain(text) {
        return Ok(Some((Lent::borrowed(key), rest)));
    }
    match read_escaped(alloc, text)? {
        None => Ok(None),
        Some((key, rest)) => Ok(Some((Lent::owned(key), rest))),
    }
}
