//! Wildcards for any number of steps.
ghost use Rattle.std.specs.Prelude.{◌≡◌};
ghost use Rattle.snap_select.specs.Deep.{is_deep, has_deep};

use crate::segment::Segment;

/// Whether the segment is the wildcard for any number of steps.
pub(crate) fn is_deep(segment: &Segment<'_>) -> bool
    ensures { result ≡ is_deep segment.now }
{
    matches!(segment, Segment::DeepWildcard)
}

/// Whether one of the segments is.
pub(crate) fn has_deep(segments: &[Segment<'_>]) -> bool
    ensures { result ≡ has_deep segments.now }
{
    segments.iter().any(|segment| is_deep(segment))
}
