//! Paths.
ghost use Rattle.std.specs.Prelude.{◌≡◌, IfOk, IfErr, option_map};
ghost use Rattle.std.specs.Str.{chars};
ghost use Rattle.snap_select.specs.Selectors.{parts_of};
ghost use Rattle.snap_front.specs.Paths.{step_of, steps_in, path_in};

use crate::path_error::PathError;
use crate::step::Step;
use snap_content::{OutOfMemory, Text};
use snap_select::{Segment, SelectError, Selector};
use std::alloc::Global;

/// A path from a tree to a part of it, a step after the other. The empty path leads to the tree itself.
#[derive(Debug, Drop)]
pub struct Path {
    steps: Vec<Step>,
}

/// The step of a segment; none of any but keys and indices.
fn step_of(alloc: Global, segment: &Segment<'_>) -> Result<Option<Step>, OutOfMemory>
    ensures { IfOk result (λ found. found ≡ step_of segment.now) }
{
    match segment {
        Segment::Key(name) => Ok(Some(Step::Key(Text::from_str(alloc, name.as_str())?))),
        Segment::Index(number) => Ok(Some(Step::Index(*number))),
        _ => Ok(None),
    }
}

/// A step for each segment, where each has one.
fn steps_in(alloc: Global, segments: &[Segment<'_>]) -> Result<Option<Vec<Step>>, OutOfMemory>
    ensures { IfOk result (λ found. option_map (λ steps. steps.items) found ≡ steps_in segments.now) }
{
    let mut steps = Vec::new(alloc);
    for segment in segments {
        match step_of(alloc, segment)? {
            Some(step) => steps.push(step)?,
            None => return Ok(None),
        }
    }
    Ok(Some(steps))
}

/// The steps of the only part; none where there are more parts, or a segment has no step.
fn path_in(alloc: Global, selector: &Selector<'_>) -> Result<Option<Vec<Step>>, OutOfMemory>
    ensures { IfOk result (λ found. option_map (λ steps. steps.items) found
        ≡ path_in (parts_of selector.now)) }
{
    if selector.parts() != 1 {
        return Ok(None);
    }
    match selector.segments(0) {
        Some(segments) => steps_in(alloc, segments),
        None => Ok(None),
    }
}

impl Path {
    ghost use Rattle.std.specs.Prelude.{Some};
    ghost use Rattle.snap_front.specs.Paths.{steps_of, IsPath, IsNoPath, IsRefusedPath};

    /// The path that the text spells: a selector of one part with keys and indices alone, as `.tags[0]` or `["a key"]`, or `.`, the
    /// empty path. A text that is no selector is refused with its fault and its column, one that is no path as `NotAPath`.
    pub fn parse(alloc: Global, text: &str) -> Result<Path, PathError>
        ensures ok { IfOk result (λ path. IsPath (chars text.now) (steps_of path)) }
        ensures refused { IfErr result (λ e. IsRefusedPath (chars text.now) e) }
    {
        match Selector::parse(alloc, text) {
            Ok(selector) => Path::of_selector(alloc, &selector),
            Err(SelectError::Parse(refusal)) => Err(PathError::Parse(refusal)),
            Err(SelectError::OutOfMemory) => Err(PathError::OutOfMemory),
        }
    }

    /// The path of a selector.
    fn of_selector(alloc: Global, selector: &Selector<'_>) -> Result<Path, PathError>
        ensures ok { IfOk result (λ path. path_in (parts_of selector.now) ≡ Some (steps_of path)) }
        ensures refused { IfErr result (λ e. IsNoPath (parts_of selector.now) e) }
    {
        match path_in(alloc, selector) {
            Ok(Some(steps)) => Ok(Path { steps }),
            Ok(None) => Err(PathError::NotAPath),
            Err(OutOfMemory) => Err(PathError::OutOfMemory),
        }
    }

    /// Its steps.
    pub fn steps(&self) -> &[Step]
        ensures { result.now ≡ steps_of self.now }
    {
        self.steps.as_slice()
    }
}
