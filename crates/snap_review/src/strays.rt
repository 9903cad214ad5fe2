//! What payloads may have left beside a snapshot file.
ghost use Rattle.std.specs.Prelude.{◌≡◌, IfOk};
ghost use Rattle.std.specs.Str.{chars};
ghost use Rattle.snap_review.specs.Strays.{is_left, left_in};

use snap_assert_place::front::{behind, behind_ascii};
use snap_content::{OutOfMemory, Text};
use snap_path::path_join;
use std::alloc::Global;

/// Whether a file of this name may be left of a payload that waited beside the file of the first name: it goes on, after that and `.new.`.
fn is_left(file: &str, name: &str) -> bool
    ensures { result ≡ is_left (chars file.now) (chars name.now) }
{
    match behind(name, file) {
        None => false,
        Some(rest) => match behind_ascii(rest, ".new.") {
            None => false,
            Some(_) => true,
        },
    }
}

/// The paths of those that are left of payloads of the file, of these names in the folder, in their order.
pub fn left_in(
    alloc: Global,
    folder: &Text,
    file: &str,
    names: &[Text],
) -> Result<Vec<Text>, OutOfMemory>
    ensures { IfOk result (λ paths. paths.items ≡ left_in folder.now (chars file.now) names.now) }
{
    let mut paths = Vec::new(alloc);
    for name in names {
        if is_left(file, name.as_str()) {
            paths.push(path_join(alloc, folder, name)?)?;
        }
    }
    Ok(paths)
}
