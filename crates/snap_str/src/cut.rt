//! A text cut at a character, and without what it begins or ends with.
ghost use Rattle.std.specs.Prelude.{◌≡◌, ◌≢◌, ◌<◌, ◌++◌, ℕ, List, length, IfSome, MatchOption};
ghost use Rattle.std.specs.Str.{chars};
ghost use Rattle.snap_str.specs.Cut.{Lacks, IsCutAtFirst, IsCutAtLast, IsLastPart, FindsByte};

use memchr::memchr;

/// What follows the prefix, where the text begins with it.
pub fn strip_prefix<'a>(text: &'a str, prefix: &str) -> Option<&'a str>
    ensures { MatchOption result
        ((rest : List ℕ) → chars text.now ≢ chars prefix.now ++ rest)
        (λ rest. chars text.now ≡ chars prefix.now ++ chars rest.now) }
{
    text.strip_prefix(prefix)
}

/// What stands before the suffix, where the text ends with it.
pub fn strip_suffix<'a>(text: &'a str, suffix: &str) -> Option<&'a str>
    ensures { MatchOption result
        ((front : List ℕ) → chars text.now ≢ front ++ chars suffix.now)
        (λ front. chars text.now ≡ chars front.now ++ chars suffix.now) }
{
    text.strip_suffix(suffix)
}

/// What stands before and after the first place of the mark.
pub fn split_once(text: &str, mark: char) -> Option<(&str, &str)>
    ensures cut { MatchOption result (Lacks mark (chars text.now))
        (λ parts. IsCutAtFirst mark (chars text.now) (chars parts.0.now) (chars parts.1.now)) }
    ensures shorter { IfSome result (λ parts.
        length (chars parts.1.now) < length (chars text.now)) }
{
    text.split_once(mark)
}

/// At which byte a mark of ASCII stands first; none where it doesn't. A search for a byte is much faster than one for a character.
pub(crate) fn find_byte(text: &str, mark: u8) -> Option<usize>
    requires { mark < 128 }
    ensures { FindsByte mark text.now result }
{
    memchr(mark, text.as_bytes())
}

/// What stands before the first place of a mark of ASCII, and after it.
pub fn split_at_byte(text: &str, mark: u8) -> Option<(&str, &str)>
    requires { mark < 128 }
    ensures cut { MatchOption result (Lacks mark (chars text.now))
        (λ parts. IsCutAtFirst mark (chars text.now) (chars parts.0.now) (chars parts.1.now)) }
    ensures shorter { IfSome result (λ parts.
        length (chars parts.1.now) < length (chars text.now)) }
{
    match find_byte(text, mark) {
        None => None,
        Some(at) => {
            let (_, rest) = text.split_at(at + 1);
            let (front, _) = text.split_at(at);
            Some((front, rest))
        }
    }
}

/// What stands before and after the last place of the mark.
pub fn rsplit_once(text: &str, mark: char) -> Option<(&str, &str)>
    ensures cut { MatchOption result (Lacks mark (chars text.now))
        (λ parts. IsCutAtLast mark (chars text.now) (chars parts.0.now) (chars parts.1.now)) }
    ensures shorter { IfSome result (λ parts.
        length (chars parts.0.now) < length (chars text.now)) }
{
    text.rsplit_once(mark)
}

/// What stands after the last place of the mark: the whole text where there is none.
pub fn last_part(text: &str, mark: char) -> &str
    ensures { IsLastPart mark (chars text.now) (chars result.now) }
{
    match rsplit_once(text, mark) {
        None => text,
        Some((_, part)) => part,
    }
}
