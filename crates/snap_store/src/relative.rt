//! A path without the components of another that stand at its front.
ghost use Rattle.std.specs.Prelude.{◌≡◌, ◌∷◌, List, ℕ, None, Some, IfOk, MatchOption, option_map};
ghost use Rattle.std.specs.Str.{bytes_eq, chars};
ghost use Rattle.snap_path.specs.Paths.{components, slashed, apart};
ghost use Rattle.snap_store.specs.Relative.{left_below, path_within, source_within};
ghost use Rattle.snap_store.specs.Views.{meta_of};

use crate::metadata::MetaData;
use snap_content::characters::begins_with;
use snap_content::{OutOfMemory, Text};
use snap_path::{next_component, path_join, path_relative_from};
use std::alloc::Global;

/// Whether both are the same component.
fn is_same(part: &str, other: &str) -> bool
    ensures { result ≡ bytes_eq (chars part.now) (chars other.now) }
{
    part == other
}

/// What stands in the path after this component, where it is the first.
fn after_component<'a>(path: &'a str, part: &str) -> Option<&'a str>
    ensures { MatchOption result
        ((base : List (List ℕ)) → left_below (apart (components (chars path.now)) (chars part.now ∷ base)) ≡ None)
        (λ rest. (base : List (List ℕ))
        → apart (components (chars path.now)) (chars part.now ∷ base)
        ≡ apart (components (chars rest.now)) base) }
{
    let (first, rest) = next_component(path)?;
    if is_same(first, part) {
        Some(rest)
    } else {
        None
    }
}

/// What stands in the path after all components of the base, where they stand at its front.
fn after_components<'a>(path: &'a str, base: &str) -> Option<&'a str>
    ensures { MatchOption result (path_within (chars path.now) (chars base.now) ≡ None)
        (λ rest. path_within (chars path.now) (chars base.now)
        ≡ Some (slashed (components (chars rest.now)))) }
{
    let mut path_left = path;
    let mut base_left = base;
    while let Some((part, base_rest)) = next_component(base_left) {
        path_left = after_component(path_left, part)?;
        base_left = base_rest;
    }
    Some(path_left)
}

/// The components of the path with one slash between each two, and none before the first.
fn components_text(alloc: Global, path: &str) -> Result<Text, OutOfMemory>
    ensures { IfOk result (λ text. text ≡ slashed (components (chars path.now))) }
{
    let text = Text::from_str(alloc, path)?;
    if begins_with(text.as_str(), '/') {
        let root = Text::from_ascii(alloc, "/")?;
        path_relative_from(alloc, &text, &root)
    } else {
        path_join(alloc, &Text::empty(), &text)
    }
}

/// The path without the components of the base; none where these don't stand at its front. The one error is out of memory.
pub fn path_within(alloc: Global, path: &Text, base: &Text) -> Result<Option<Text>, OutOfMemory>
    ensures { IfOk result (λ seen. seen ≡ path_within path.now base.now) }
{
    match after_components(path.as_str(), base.as_str()) {
        None => Ok(None),
        Some(rest) => Ok(Some(components_text(alloc, rest)?)),
    }
}

/// The source as it is seen from the base that it is below, or the base where it isn't.
fn source_within(alloc: Global, source: &Text, base: &Text) -> Result<Text, OutOfMemory>
    ensures { IfOk result (λ seen. seen ≡ source_within base.now source.now) }
{
    let whole = path_join(alloc, base, source)?;
    match path_within(alloc, &whole, base)? {
        Some(seen) => Ok(seen),
        None => path_join(alloc, base, &Text::empty()),
    }
}

impl MetaData {
    /// The source file, joined to the base, without the base's components, or the base itself where these don't stand at its
    /// front; none without a source. The one error is out of memory.
    pub fn get_relative_source(
        &self,
        alloc: Global,
        base: &Text,
    ) -> Result<Option<Text>, OutOfMemory>
        ensures { IfOk result (λ seen. seen
            ≡ option_map (source_within base.now) (meta_of self.now).source) }
    {
        match &self.source {
            None => Ok(None),
            Some(source) => Ok(Some(source_within(alloc, source, base)?)),
        }
    }
}
