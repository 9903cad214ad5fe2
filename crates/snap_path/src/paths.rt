//! Paths as texts. The paths that are made here are components with one slash between each two.
//! The one error of these calls is out of memory.
ghost use Rattle.std.specs.Prelude.{◌≡◌, ◌<◌, length, IfOk, IfSome, MatchOption};
ghost use Rattle.std.specs.Str.{bytes_eq, chars};
ghost use Rattle.snap_path.specs.Paths.{start, components, all_but_last, path_of_parts, joined, parent_of, apart, AreApart, from_apart, relative_from, front_of};

use crate::components::{last_component, next_component, push_components, push_steps};
use snap_content::characters::begins_with;
use snap_content::{OutOfMemory, Text};
use std::alloc::Global;

/// A path of no component, with a slash where it begins at the root.
fn start(alloc: Global, absolute: bool) -> Result<Text, OutOfMemory>
    ensures { IfOk result (λ path. path ≡ start absolute) }
{
    let mut path = Text::empty();
    if absolute {
        path.push(alloc, '/')?;
    }
    Ok(path)
}

/// The path of the text's components.
fn path_of(alloc: Global, absolute: bool, text: &str) -> Result<Text, OutOfMemory>
    ensures { IfOk result (λ path. path ≡ path_of_parts absolute (components (chars text.now))) }
{
    let mut path = start(alloc, absolute)?;
    push_components(alloc, &mut path, false, text)?;
    Ok(path)
}

/// The tail below the base. An absolute tail stands for itself.
pub fn path_join(alloc: Global, base: &Text, tail: &Text) -> Result<Text, OutOfMemory>
    ensures { IfOk result (λ path. path ≡ joined base.now tail.now) }
{
    if begins_with(tail.as_str(), '/') {
        return path_of(alloc, true, tail.as_str());
    }
    let mut path = start(alloc, begins_with(base.as_str(), '/'))?;
    let is_behind = push_components(alloc, &mut path, false, base.as_str())?;
    push_components(alloc, &mut path, is_behind, tail.as_str())?;
    Ok(path)
}

/// What stands before the last component; nothing, where there is none.
fn before_last(path: &str) -> &str
    ensures { components (chars result.now) ≡ all_but_last (components (chars path.now)) }
{
    match last_component(path) {
        Some((front, _)) => front,
        None => "",
    }
}

/// The path without its last component, where there is one.
pub fn path_parent(alloc: Global, path: &Text) -> Result<Text, OutOfMemory>
    ensures { IfOk result (λ parent. parent ≡ parent_of path.now) }
{
    let path = path.as_str();
    path_of(alloc, begins_with(path, '/'), before_last(path))
}

/// Whether both are the same component.
fn is_same(part: &str, other: &str) -> bool
    ensures { result ≡ bytes_eq (chars part.now) (chars other.now) }
{
    part == other
}

/// What is left of both after a first component that they have in common; none exactly where they have none.
fn behind_common<'a, 'b>(path: &'a str, base: &'b str) -> Option<(&'a str, &'b str)>
    ensures left { MatchOption result
        (AreApart (components (chars path.now)) (components (chars base.now)))
        (λ p. apart (components (chars path.now)) (components (chars base.now))
        ≡ apart (components (chars p.0.now)) (components (chars p.1.now))) }
    ensures shorter { IfSome result (λ p. length (chars p.0.now) < length (chars path.now)) }
{
    let (part, path_rest) = next_component(path)?;
    let (same, base_rest) = next_component(base)?;
    if is_same(part, same) {
        Some((path_rest, base_rest))
    } else {
        None
    }
}

/// What is left of both without the components that they have in common at their fronts.
fn apart<'a, 'b>(path: &'a str, base: &'b str) -> (&'a str, &'b str)
    ensures path { components (chars result.0.now)
        ≡ (apart (components (chars path.now)) (components (chars base.now))).path }
    ensures base { components (chars result.1.now)
        ≡ (apart (components (chars path.now)) (components (chars base.now))).base }
{
    let mut path_left = path;
    let mut base_left = base;
    while let Some((path_rest, base_rest)) = behind_common(path_left, base_left) {
        path_left = path_rest;
        base_left = base_rest;
    }
    (path_left, base_left)
}

/// The steps up for what is left of the base, and after them what is left of the path.
fn seen_from(alloc: Global, path: &str, base: &str) -> Result<Text, OutOfMemory>
    ensures { IfOk result (λ seen. seen
        ≡ from_apart (apart (components (chars path.now)) (components (chars base.now)))) }
{
    let (below, above) = apart(path, base);
    let mut seen = Text::empty();
    let is_behind = push_steps(alloc, &mut seen, above)?;
    push_components(alloc, &mut seen, is_behind, below)?;
    Ok(seen)
}

/// The path as seen from the base.
pub fn path_relative_from(alloc: Global, path: &Text, base: &Text) -> Result<Text, OutOfMemory>
    ensures { IfOk result (λ seen. seen ≡ relative_from path.now base.now) }
{
    let absolute = begins_with(path.as_str(), '/');
    if absolute == begins_with(base.as_str(), '/') {
        seen_from(alloc, path.as_str(), base.as_str())
    } else {
        path_of(alloc, absolute, path.as_str())
    }
}

/// What stands before a name in the path of a folder's file.
pub fn path_front(alloc: Global, folder: &Text) -> Result<Text, OutOfMemory>
    ensures { IfOk result (λ front. front ≡ front_of folder.now) }
{
    let folder = folder.as_str();
    let mut front = start(alloc, begins_with(folder, '/'))?;
    if push_components(alloc, &mut front, false, folder)? {
        front.push(alloc, '/')?;
    }
    Ok(front)
}
