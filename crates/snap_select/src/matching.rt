//! Which paths a selector matches.
ghost use Rattle.std.specs.Prelude.{◌≡◌, ◌≤◌, length, map, position, take};
ghost use Rattle.snap_select.specs.Matching.{step_of, lent_step, fits_step, fit_each, last_of, matches_whole, matches_ends, segments_match, path_match};
ghost use Rattle.snap_select.specs.Reaching.{segments_reach, reaches, segments_open, opens};
ghost use Rattle.snap_select.specs.Deep.{is_deep, has_deep};

use crate::deep::{has_deep, is_deep};
use crate::path_item::PathItem;
use crate::segment::Segment;
use crate::selector::Selector;
use crate::step_ref::StepRef;

/// Whether the segment fits the step.
fn fits_step(segment: &Segment<'_>, step: StepRef<'_>) -> bool
    ensures { result ≡ fits_step segment.now (lent_step step.entry) }
{
    match segment {
        Segment::DeepWildcard => true,
        Segment::Wildcard => true,
        Segment::Key(name) => step.is_named(name.as_str()),
        Segment::Index(number) => step.is_numbered(*number),
        Segment::Range(from, to) => step.range_check(*from, *to),
    }
}

/// Whether each segment fits its step, as far as both lists go.
fn fit_each(segments: &[Segment<'_>], path: &[PathItem]) -> bool
    ensures { result ≡ fit_each segments.now (map step_of path.now) }
{
    let mut rest = path;
    for segment in segments {
        match rest {
            [] => return true,
            [step, later @ ..] => {
                if !fits_step(segment, step.lent()) {
                    return false;
                }
                rest = later;
            }
        }
    }
    true
}

/// Whether there are as many segments as steps, and each fits its step.
fn matches_whole(segments: &[Segment<'_>], path: &[PathItem]) -> bool
    ensures { result ≡ matches_whole segments.now (map step_of path.now) }
{
    segments.len() == path.len() && fit_each(segments, path)
}

/// Whether the last segments fit the last steps, as far as both lists go.
fn fit_ends(segments: &[Segment<'_>], path: &[PathItem], count: usize) -> bool
    requires segments { count ≤ length segments.now }
    requires path { count ≤ length path.now }
    ensures { result ≡ fit_each (last_of count segments.now)
        (last_of count (map step_of path.now)) }
{
    let last_segments = &segments[segments.len() - count..];
    let last_steps = &path[path.len() - count..];
    fit_each(last_segments, last_steps)
}

/// Whether there are more steps than segments in the first list, which fit the first steps, and the segments in the
/// second list fit the last steps, as far as both go.
fn matches_ends(before: &[Segment<'_>], after: &[Segment<'_>], path: &[PathItem]) -> bool
    ensures { result ≡ matches_ends before.now after.now (map step_of path.now) }
{
    before.len() < path.len()
        && fit_each(before, path)
        && fit_ends(after, path, after.len().min(path.len()))
}

/// The place of the first wildcard for any number of steps.
fn deep_at(segments: &[Segment<'_>]) -> Option<usize>
    ensures { result ≡ position is_deep segments.now }
{
    segments.iter().position(|segment| is_deep(segment))
}

/// Whether the segments match the path.
fn segments_match(segments: &[Segment<'_>], path: &[PathItem]) -> bool
    ensures { result ≡ segments_match segments.now (map step_of path.now) }
{
    match deep_at(segments) {
        None => matches_whole(segments, path),
        Some(deep) => matches_ends(&segments[..deep], &segments[deep + 1..], path),
    }
}

/// Whether the segments may match a path that goes on from this one.
fn segments_reach(segments: &[Segment<'_>], path: &[PathItem]) -> bool
    ensures { result ≡ segments_reach segments.now (map step_of path.now) }
{
    match deep_at(segments) {
        None => path.len() < segments.len() && fit_each(segments, path),
        Some(deep) => fit_each(&segments[..deep], path),
    }
}

/// Whether one of the first segments is a wildcard for any number of steps.
fn is_deep_before(segments: &[Segment<'_>], count: usize) -> bool
    ensures { result ≡ has_deep (take count segments.now) }
{
    has_deep(&segments[..count.min(segments.len())])
}

/// Whether the segments may match a path that has this step after so many, whatever those are.
fn segments_open(segments: &[Segment<'_>], count: usize, step: StepRef<'_>) -> bool
    ensures { result ≡ segments_open segments.now count (lent_step step.entry) }
{
    match segments.get(count) {
        Some(segment) if fits_step(segment, step) => true,
        _ => is_deep_before(segments, count),
    }
}

impl Selector<'_> {
    ghost use Rattle.snap_select.specs.Selectors.{parts_of};

    /// Whether the selector matches the path: where one of its parts does. Without a deep wildcard a part has as many segments
    /// as the path has steps, of which each fits its own; with one, the segments before it fit the first steps, of which there
    /// are fewer than the path has, and those after it the last ones, as far as there are any.
    /// A key fits a text key and a field of that name, an index the item at that position and a key that is that number, a
    /// range the items between its bounds, and a wildcard every step.
    pub fn is_match(&self, path: &[PathItem]) -> bool
        ensures { result ≡ path_match (parts_of self.now) (map step_of path.now) }
    {
        self.parts
            .iter()
            .any(|part| segments_match(part.segments(), path))
    }

    /// Whether one of the parts may match a path that goes on from this one.
    pub(crate) fn reaches(&self, path: &[PathItem]) -> bool
        ensures { result ≡ reaches (parts_of self.now) (map step_of path.now) }
    {
        self.parts
            .iter()
            .any(|part| segments_reach(part.segments(), path))
    }
    /// Whether one of the parts may match a path that has this step after so many, whatever those are.
    pub(crate) fn opens(&self, count: usize, step: StepRef<'_>) -> bool
        ensures { result ≡ opens (parts_of self.now) count (lent_step step.entry) }
    {
        self.parts
            .iter()
            .any(|part| segments_open(part.segments(), count, step))
    }
}
