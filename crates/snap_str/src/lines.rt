//! A text line by line, without memory.
ghost use Rattle.std.specs.Prelude.{◌≡◌, ◌<◌, [], ◌∷◌, length, IfSome, MatchOption};
ghost use Rattle.std.specs.Str.{chars};
ghost use Rattle.snap_str.specs.Cut.{Lacks, IsCutAtFirst};
ghost use Rattle.snap_str.specs.Lines.{without_return, lines, ended_lines};

use crate::cut::{find_byte, split_at_byte, strip_suffix};

/// What stands before the first line's end, and after it; none where the text holds none.
pub fn split_line(text: &str) -> Option<(&str, &str)>
    ensures cut { MatchOption result (Lacks 10 (chars text.now))
        (λ parts. IsCutAtFirst 10 (chars text.now) (chars parts.0.now) (chars parts.1.now)) }
    ensures shorter { IfSome result (λ parts.
        length (chars parts.1.now) < length (chars text.now)) }
{
    split_at_byte(text, b'\n')
}

/// The line without one return at its end.
fn without_return(line: &str) -> &str
    ensures { chars result.now ≡ without_return (chars line.now) }
{
    match strip_suffix(line, "\r") {
        Some(front) => front,
        None => line,
    }
}

/// The first line without its end, and what follows it; none where the text is empty.
pub fn next_line(text: &str) -> Option<(&str, &str)>
    ensures line { MatchOption result (chars text.now ≡ [])
        (λ parts. lines (chars text.now) ≡ chars parts.0.now ∷ lines (chars parts.1.now)) }
    ensures shorter { IfSome result (λ parts.
        length (chars parts.1.now) < length (chars text.now)) }
{
    match split_line(text) {
        Some((line, rest)) => Some((without_return(line), rest)),
        None if text.is_empty() => None,
        None => Some((text, "")),
    }
}

/// The first line with its end, and what follows it; none where the text is empty.
pub fn next_ended_line(text: &str) -> Option<(&str, &str)>
    ensures line { MatchOption result (chars text.now ≡ [])
        (λ parts. ended_lines (chars text.now)
        ≡ chars parts.0.now ∷ ended_lines (chars parts.1.now)) }
    ensures shorter { IfSome result (λ parts.
        length (chars parts.1.now) < length (chars text.now)) }
{
    match find_byte(text, b'\n') {
        Some(at) => Some(text.split_at(at + 1)),
        None if text.is_empty() => None,
        None => Some((text, "")),
    }
}
