//! Copies of selectors.
ghost use Rattle.std.specs.Prelude.{◌≡◌, IfOk};
ghost use Rattle.std.specs.Str.{chars};

use crate::part::Part;
use crate::segment::Segment;
use crate::selector::Selector;
use snap_content::{Lent, OutOfMemory, Text};
use std::alloc::Global;

/// The segment with a key of its own.
fn owned_segment(alloc: Global, segment: &Segment<'_>) -> Result<Segment<'static>, OutOfMemory>
    ensures { IfOk result (λ copy. copy ≡ segment.now) }
{
    match segment {
        Segment::DeepWildcard => Ok(Segment::DeepWildcard),
        Segment::Wildcard => Ok(Segment::Wildcard),
        Segment::Key(key) => {
            let text = Text::from_str(alloc, key.as_str())?;
            Ok(Segment::Key(Lent::owned(text)))
        }
        Segment::Index(index) => Ok(Segment::Index(*index)),
        Segment::Range(from, to) => Ok(Segment::Range(*from, *to)),
    }
}

/// The segments with keys of their own.
fn owned_segments(
    alloc: Global,
    segments: &[Segment<'_>],
) -> Result<Vec<Segment<'static>>, OutOfMemory>
    ensures { IfOk result (λ copies. copies.items ≡ segments.now) }
{
    let mut copies = Vec::new(alloc);
    for segment in segments {
        copies.push(owned_segment(alloc, segment)?)?;
    }
    Ok(copies)
}

/// The part with keys of its own.
fn owned_part(alloc: Global, part: &Part<'_>) -> Result<Part<'static>, OutOfMemory>
    ensures { IfOk result (λ copy. copy ≡ part.now) }
{
    Ok(Part::of(owned_segments(alloc, part.segments())?))
}

/// The parts with keys of their own.
fn owned_parts(alloc: Global, parts: &[Part<'_>]) -> Result<Vec<Part<'static>>, OutOfMemory>
    ensures { IfOk result (λ copies. copies.items ≡ parts.now) }
{
    let mut copies = Vec::new(alloc);
    for part in parts {
        copies.push(owned_part(alloc, part)?)?;
    }
    Ok(copies)
}

/// The one error of these calls is out of memory.
impl<'a> Selector<'a> {
    ghost use Rattle.snap_select.specs.Selectors.{parts_of};

    /// A selector of the same parts, which holds its keys itself.
    pub fn make_static(self, alloc: Global) -> Result<Selector<'static>, OutOfMemory>
        ensures { IfOk result (λ made. parts_of made ≡ parts_of self.entry) }
    {
        let parts = owned_parts(alloc, self.parts.as_slice())?;
        Ok(Selector { parts })
    }

    /// A selector of the same parts.
    pub fn try_clone(&self, alloc: Global) -> Result<Selector<'a>, OutOfMemory>
        ensures { IfOk result (λ copy. parts_of copy ≡ parts_of self.now) }
    {
        let copies = owned_parts(alloc, self.parts.as_slice())?;
        Ok(Selector { parts: copies })
    }
}
