//! What pending payloads leave behind: files that go with each assertion.
ghost use Rattle.std.specs.Prelude.{◌≡◌, List, ℕ, true};
ghost use Rattle.std.specs.Str.{chars};
ghost use Rattle.snap_assert.specs.Steps.{is_stray};
ghost use Rattle.snap_assert_place.specs.SnapshotPath.{IsFilePath};

use snap_assert_place::file_path::holds_slash;
use snap_assert_place::front::{behind, behind_ascii};
use snap_content::Text;
use snap_path::path_name;

/// Whether a file of this name, or at this path, is left behind by payloads of the file that stands beside it. Such a name is longer.
pub fn is_stray(file: &str, name: &str) -> bool
    ensures { result ≡ is_stray (chars file.now) (chars name.now) }
{
    if name.len() <= file.len() {
        return false;
    }
    match behind(name, file) {
        None => false,
        Some(rest) => match behind_ascii(rest, ".new.") {
            None => false,
            Some(rest) => !holds_slash(rest),
        },
    }
}

/// Whether a file of this name may be left behind by payloads of one that stands beside it. Few names may.
pub fn may_be_left(name: &str) -> bool
    ensures { (file : List ℕ) → is_stray file (chars name.now) ≡ true → result ≡ true }
{
    name.contains(".new.")
}

/// The same of a path.
pub fn may_be_left_at(path: &Text) -> bool
    ensures { (file : List ℕ) → IsFilePath file → is_stray file path.now ≡ true → result ≡ true }
{
    match path_name(path) {
        None => false,
        Some(name) => may_be_left(name),
    }
}
