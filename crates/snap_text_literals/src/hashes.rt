//! Runs of `#`, which frame a raw literal.
ghost use Rattle.std.specs.Prelude.{◌≡◌, ◌++◌, false, Some, MatchOption};
ghost use Rattle.std.specs.Str.{chars};
ghost use Rattle.snap_content.specs.Front.{begins};
ghost use Rattle.snap_text_literals.specs.Hashes.{hashes, past_hashes, past_end, required};

use snap_content::characters::{after_character, split_first};

/// How many `#` the text begins with, and what follows them.
pub fn split_hashes(text: &str) -> (usize, &str)
    ensures is { chars text.now ≡ hashes result.0 ++ chars result.1.now }
    ensures whole { begins 35 (chars result.1.now) ≡ false }
{
    let mut rest = text;
    let mut count: usize = 0;
    while let Some(more) = after_character(rest, '#') {
        count += 1;
        rest = more;
    }
    (count, rest)
}

/// What follows so many `#`, where the text begins with them.
pub fn after_hashes(text: &str, count: usize) -> Option<&str>
    ensures { MatchOption result (past_hashes count (chars text.now) ≡ None)
        (λ rest. past_hashes count (chars text.now) ≡ Some (chars rest.now)) }
{
    let mut rest = text;
    let mut left = count;
    while left > 0 {
        rest = after_character(rest, '#')?;
        left -= 1;
    }
    Some(rest)
}

/// What follows a quote and so many `#`, where the text begins with them.
pub fn after_end(text: &str, count: usize) -> Option<&str>
    ensures { MatchOption result (past_end count (chars text.now) ≡ None)
        (λ rest. past_end count (chars text.now) ≡ Some (chars rest.now)) }
{
    let rest = after_character(text, '"')?;
    after_hashes(rest, count)
}

/// One more than the longest run of `#` after a quote, and 0 without a quote.
pub fn required_hashes(text: &str) -> usize
    ensures { result ≡ required (chars text.now) }
{
    let mut most: usize = 0;
    let mut rest = text;
    while let Some((c, more)) = split_first(rest) {
        if c == '"' {
            let (count, _) = split_hashes(more);
            most = most.max(count + 1);
        }
        rest = more;
    }
    most
}
