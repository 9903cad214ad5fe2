//! Parts of a selector.
ghost use Rattle.std.specs.Prelude.{◌≡◌};

use crate::segment::Segment;
use std::marker::Model;

/// A part of a selector: its segments, one after the other.
#[derive(Debug, Drop)]
pub struct Part<'a> {
    segments: Vec<Segment<'a>>,
}

impl<'a> Model for Part<'a> {
    ghost use Rattle.std.specs.Prelude.{List};
    ghost use Rattle.snap_select.specs.declared.segment.Segment.{Segment};

    ghost Value = { List Segment };

    ghost view = { λ part. part.segments.items };
}

impl<'a> Part<'a> {
    /// A part of these segments.
    pub(crate) fn of(segments: Vec<Segment<'a>>) -> Part<'a>
        ensures { result ≡ segments.entry.items }
    {
        Part { segments }
    }

    /// Its segments.
    pub(crate) fn segments(&self) -> &[Segment<'a>]
        ensures { result.now ≡ self.now }
    {
        self.segments.as_slice()
    }
}
