//! Where the first literal stands from a line on.
ghost use Rattle.std.specs.Prelude.{◌≡◌, None, Some, MatchOption};
ghost use Rattle.std.specs.Str.{chars};
ghost use Rattle.snap_review.specs.Places.{past_lines, from_line, IsMarked, HasNoneMarked};

use snap_str::cut::split_once;
use snap_text_literals::after_literal;

/// What follows so many line ends.
fn past_lines(text: &str, count: u32) -> Option<&str>
    ensures { MatchOption result (past_lines count (chars text.now) ≡ None)
        (λ rest. past_lines count (chars text.now) ≡ Some (chars rest.now)) }
{
    let mut rest = text;
    let mut left = count;
    while left > 0 {
        match split_once(rest, '\n') {
            None => return None,
            Some((_, behind)) => {
                rest = behind;
                left -= 1;
            }
        }
    }
    Some(rest)
}

/// The text from the start of a line on, over what is known of an earlier one.
pub fn from_line<'a>(source: &'a str, at: u32, ahead: &'a str, line: u32) -> Option<&'a str>
    requires { from_line at (chars source.now) ≡ Some (chars ahead.now) }
    ensures { MatchOption result (from_line line (chars source.now) ≡ None)
        (λ rest. from_line line (chars source.now) ≡ Some (chars rest.now)) }
{
    if line == 0 {
        return None;
    }
    if line < at {
        return past_lines(source, line - 1);
    }
    past_lines(ahead, line - at)
}

/// The text from the first literal behind an `@` on, and what stands behind that literal.
pub fn first_marked(text: &str) -> Option<(&str, &str)>
    ensures { MatchOption result (HasNoneMarked (chars text.now))
        (λ p. IsMarked (chars text.now) (chars p.0.now) (chars p.1.now)) }
{
    let mut rest = text;
    while let Some((_, here)) = split_once(rest, '@') {
        if let Some(behind) = after_literal(here) {
            return Some((here, behind));
        }
        rest = here;
    }
    None
}
