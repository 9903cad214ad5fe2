//! A path in its components, which are read off its text: from its front and from its end. The one error is out of memory.
ghost use Rattle.std.specs.Prelude.{◌≡◌, ◌<◌, [], ◌∷◌, ◌++◌, length, IfOk, IfSome, MatchOption, OnOk, Some, None, IsTrue, false};
ghost use Rattle.std.specs.Char.{is_ascii};
ghost use Rattle.std.specs.List.{list_all};
ghost use Rattle.std.specs.Str.{chars};
ghost use Rattle.snap_path.specs.Names.{cut_last, cut_of};
ghost use Rattle.snap_path.specs.Paths.{is_component, components, then_slashed, stand_behind, steps_up};

use snap_content::characters::split_first;
use snap_content::{OutOfMemory, Text};
use snap_str::cut::split_once;
use std::alloc::Global;

/// Whether the text between two slashes is a component: neither empty nor a dot.
pub fn is_component(part: &str) -> bool
    ensures { result ≡ is_component (chars part.now) }
{
    match split_first(part) {
        None => false,
        Some((first, rest)) => first != '.' || split_first(rest).is_some(),
    }
}

/// The first component, and what stands after it; none exactly where there is no component.
pub fn next_component(path: &str) -> Option<(&str, &str)>
    ensures component { MatchOption result (components (chars path.now) ≡ [])
        (λ p. components (chars path.now) ≡ chars p.0.now ∷ components (chars p.1.now)) }
    ensures shorter { IfSome result (λ p. length (chars p.1.now) < length (chars path.now)) }
{
    let mut rest = path;
    while let Some((part, next)) = split_once(rest, '/') {
        if is_component(part) {
            return Some((part, next));
        }
        rest = next;
    }
    if is_component(rest) {
        Some((rest, ""))
    } else {
        None
    }
}

/// What stands before and after the last place of the mark in the text.
pub fn cut_at_last<'a>(text: &'a str, mark: &str) -> Option<(&'a str, &'a str)>
    requires ascii { IsTrue (list_all is_ascii mark.now) }
    requires mark { 0 < length mark.now }
    ensures cut { MatchOption result (cut_last mark.now (chars text.now) ≡ None)
        (λ p. cut_last mark.now (chars text.now) ≡ Some (cut_of (chars p.0.now) (chars p.1.now))) }
    ensures shorter { IfSome result (λ p. length (chars p.0.now) < length (chars text.now)) }
{
    text.rsplit_once(mark)
}

/// The last component, after what stands before it; none exactly where there is no component.
pub fn last_component(path: &str) -> Option<(&str, &str)>
    ensures { MatchOption result (components (chars path.now) ≡ [])
        (λ p. components (chars path.now) ≡ components (chars p.0.now) ++ chars p.1.now ∷ []) }
{
    let mut rest = path;
    while let Some((front, part)) = cut_at_last(rest, "/") {
        if is_component(part) {
            return Some((front, part));
        }
        rest = front;
    }
    if is_component(rest) {
        Some(("", rest))
    } else {
        None
    }
}

/// Adds the component: after a slash, where others stand before it.
fn push_component(
    alloc: Global,
    path: &mut Text,
    is_behind: bool,
    part: &str,
) -> Result<(), OutOfMemory>
    ensures { OnOk result (path.new ≡ path.old ++ then_slashed is_behind (chars part.now ∷ [])) }
{
    if is_behind {
        path.push(alloc, '/')?;
    }
    path.push_str(alloc, part)?;
    Ok(())
}

/// Adds the components of the text with a slash between each two, and one before the first where others stand before it.
/// Whether a component stands in the path then.
pub fn push_components(
    alloc: Global,
    path: &mut Text,
    is_behind: bool,
    text: &str,
) -> Result<bool, OutOfMemory>
    ensures path { OnOk result (path.new
        ≡ path.old ++ then_slashed is_behind (components (chars text.now))) }
    ensures behind { IfOk result (λ behind. behind
        ≡ stand_behind is_behind (components (chars text.now))) }
{
    let mut is_behind = is_behind;
    let mut rest = text;
    while let Some((part, next)) = next_component(rest) {
        push_component(alloc, path, is_behind, part)?;
        is_behind = true;
        rest = next;
    }
    Ok(is_behind)
}

/// Adds one step up for each component of the text, with a slash between each two. Whether a step stands there then.
pub fn push_steps(alloc: Global, path: &mut Text, text: &str) -> Result<bool, OutOfMemory>
    ensures path { OnOk result (path.new
        ≡ path.old ++ then_slashed false (steps_up (components (chars text.now)))) }
    ensures behind { IfOk result (λ behind. behind
        ≡ stand_behind false (steps_up (components (chars text.now)))) }
{
    let mut is_behind = false;
    let mut rest = text;
    while let Some((_, next)) = next_component(rest) {
        push_component(alloc, path, is_behind, "..")?;
        is_behind = true;
        rest = next;
    }
    Ok(is_behind)
}
