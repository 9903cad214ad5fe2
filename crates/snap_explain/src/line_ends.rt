//! Texts that differ in nothing but the white space at the ends of their lines.
ghost use Rattle.std.specs.Prelude.{◌≡◌};
ghost use Rattle.std.specs.Str.{chars};
ghost use Rattle.snap_str.specs.Lines.{lines};
ghost use Rattle.snap_explain.specs.LineEnds.{are_alike, is_alike};

use snap_content::characters::compare;
use snap_str::lines::next_line;
use snap_text::normal::trimmed_text;

/// Whether two lines are one but for the white space at their ends.
fn is_alike(line: &str, other: &str) -> bool
    ensures { result ≡ is_alike (chars line.now) (chars other.now) }
{
    compare(trimmed_text(line), trimmed_text(other)).is_eq()
}

/// Whether two texts have the same lines but for the white space at their ends.
pub(crate) fn are_alike_lines(old: &str, new: &str) -> bool
    ensures { result ≡ are_alike (lines (chars old.now)) (lines (chars new.now)) }
{
    let mut left = old;
    let mut right = new;
    while let Some((line, more)) = next_line(left) {
        let Some((other, others)) = next_line(right) else {
            return false;
        };
        if !is_alike(line, other) {
            return false;
        }
        left = more;
        right = others;
    }
    next_line(right).is_none()
}
