//! Which snapshot a file is of, by its path.
ghost use Rattle.std.specs.Prelude.{◌≡◌, true, false, IsTrue, MatchOption};
ghost use Rattle.std.specs.Char.{is_ascii};
ghost use Rattle.std.specs.List.{list_all};
ghost use Rattle.std.specs.Prelude.{codes};
ghost use Rattle.std.specs.Str.{chars};
ghost use Rattle.snap_explain_unused.specs.Unused.{base_of, before_end, ends_with};

use snap_str::cut::strip_suffix;

/// What stands before the end, where the text ends so.
fn before_end<'a>(text: &'a str, end: &str) -> Option<&'a str>
    requires { IsTrue (list_all is_ascii end.now) }
    ensures { MatchOption result (ends_with end.now (chars text.now) ≡ false)
        (λ front. (ends_with end.now (chars text.now) ≡ true)
        × (chars front.now ≡ before_end end.now (chars text.now))) }
{
    match strip_suffix(text, end) {
        None => None,
        Some(front) => Some(front),
    }
}

/// The path without the ending of a pending snapshot, where it has that.
pub(crate) fn base_of(path: &str) -> &str
    ensures { chars result.now ≡ base_of (chars path.now) }
{
    match before_end(path, ".new") {
        None => path,
        Some(front) => front,
    }
}

/// Whether the path is that of a snapshot.
pub(crate) fn is_snapshot(path: &str) -> bool
    ensures { result ≡ ends_with (codes ".snap") (chars path.now) }
{
    before_end(path, ".snap").is_some()
}
