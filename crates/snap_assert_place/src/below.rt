//! Paths below others, made without taking those apart again.
ghost use Rattle.std.specs.Prelude.{◌≡◌, ◌∷◌, ◌++◌, [], true, IfOk};
ghost use Rattle.std.specs.Str.{chars};
ghost use Rattle.snap_path.specs.Paths.{joined, relative_from, front_of, IsName};
ghost use Rattle.snap_assert_place.specs.Below.{IsOfParts};

use crate::file_path::holds_slash;
use snap_content::characters::{begins_with, is_same};
use snap_content::{OutOfMemory, Text};
use snap_path::{is_component, path_join, path_relative_from};
use std::alloc::Global;

/// Whether the text is one component.
fn is_name(text: &str) -> bool
    ensures { result ≡ true → IsName (chars text.now) }
{
    is_component(text) && !holds_slash(text)
}

/// Whether the path has a component, so that a slash stands after it and in front of a name.
fn has_component(path: &str) -> bool
    requires { IsOfParts (chars path.now) }
    ensures { result ≡ true → front_of (chars path.now) ≡ chars path.now ++ 47 ∷ [] }
{
    !is_same(path, "") && !is_same(path, "/")
}

/// The name after the path and a slash.
fn push_name(alloc: Global, path: Text, name: &Text) -> Result<Text, OutOfMemory>
    ensures { IfOk result (λ made. made ≡ (path ++ 47 ∷ []) ++ name.now) }
{
    let mut made = path;
    made.push(alloc, '/')?;
    made.push_text(alloc, name)?;
    Ok(made)
}

/// The tail below a folder that was joined.
fn below_folder(alloc: Global, folder: Text, tail: &Text) -> Result<Text, OutOfMemory>
    requires { IsOfParts folder }
    ensures { IfOk result (λ path. path ≡ joined folder tail.now) }
{
    if has_component(folder.as_str()) && is_name(tail.as_str()) {
        push_name(alloc, folder, tail)
    } else {
        path_join(alloc, &folder, tail)
    }
}

/// The file in a folder below another folder.
pub(crate) fn path_below(
    alloc: Global,
    base: &Text,
    folder: &Text,
    inner: &Text,
    file: &Text,
) -> Result<Text, OutOfMemory>
    ensures { IfOk result (λ path. path
        ≡ joined (joined (joined base.now folder.now) inner.now) file.now) }
{
    let folder = path_join(alloc, base, folder)?;
    let folder = below_folder(alloc, folder, inner)?;
    below_folder(alloc, folder, file)
}

/// The file below the base, as it is seen from there.
pub(crate) fn seen_below(alloc: Global, base: &Text, file: &Text) -> Result<Text, OutOfMemory>
    ensures { IfOk result (λ seen. seen ≡ relative_from (joined base.now file.now) base.now) }
{
    if begins_with(file.as_str(), '/') {
        let whole = path_join(alloc, base, file)?;
        path_relative_from(alloc, &whole, base)
    } else {
        path_join(alloc, &Text::empty(), file)
    }
}
