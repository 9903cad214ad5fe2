//! Whether a text is the path of a file.
ghost use Rattle.std.specs.Prelude.{◌≡◌};
ghost use Rattle.std.specs.Str.{chars};
ghost use Rattle.snap_assert_place.specs.Place.{holds_slash, last_part, names_file};

use snap_content::characters::is_same;
use snap_path::is_component;
use snap_str::cut::last_part;

/// What stands after the last slash.
fn last_part_of(path: &str) -> &str
    ensures { chars result.now ≡ last_part (chars path.now) }
{
    last_part(path, '/')
}

/// Whether the text holds a slash.
pub fn holds_slash(text: &str) -> bool
    ensures { result ≡ holds_slash (chars text.now) }
{
    text.chars().any(|c| c == '/')
}

/// Whether the text is the path of a file: its last part is not empty, and neither `.` nor `..`.
pub fn is_file_path(path: &str) -> bool
    ensures { result ≡ names_file (chars path.now) }
{
    let part = last_part_of(path);
    is_component(part) && !is_same(part, "..")
}
