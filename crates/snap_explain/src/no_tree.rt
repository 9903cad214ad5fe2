//! Where a header or a value is read as no tree, and why.
ghost use Rattle.std.specs.Prelude.{◌≡◌, None, IfOk, IfSome};
ghost use Rattle.std.specs.Str.{chars};
ghost use Rattle.snap_emit.specs.Readings.{IsReasonIn};

use crate::failing::{PageTold, Pointed};
use crate::hint::hint;
use crate::outline::{Outline, outline_of};
use crate::pointing::node_of;
use crate::position::{Place, place_behind};
use snap_content::{OutOfMemory, Text};
use snap_emit::{Refusal, read_text};
use snap_run_requests::Reason;
use snap_scan_tokens::ScanError;
use snap_str::cut::split_at_byte;
use std::alloc::Global;

/// What a text is that is read as a tree.
#[derive(Clone, Copy, Debug, PartialEq, Eq)]
pub(crate) enum Part {
    /// The header, with which the page begins.
    Header,
    /// The word VALUE, behind a line of its own.
    Value,
}

impl Part {
    /// The number of the text's first line.
    fn first_line(self) -> u64 {
        match self {
            Part::Header => 1,
            Part::Value => 0,
        }
    }

    pub(crate) fn at(self, place: Place) -> Pointed {
        match self {
            Part::Header => Pointed::Page(place),
            Part::Value => Pointed::Value(place),
        }
    }

    /// The place behind so many characters of the text.
    pub(crate) fn behind(self, text: &str, before: usize) -> Pointed {
        self.at(place_behind(text, self.first_line(), before))
    }
}

/// How many characters stand before the place that a reason speaks of, where it speaks of one.
fn before_of(outline: &Outline, node: Option<usize>, why: &Refusal) -> Option<usize> {
    match why {
        Refusal::NoYaml(ScanError::Syntax(mark, _)) => Some(mark.index()),
        Refusal::NotOneDocument if outline.documents > 1 => Some(outline.second),
        _ => match outline.nodes.as_slice().get(node?) {
            Some(node) => Some(node.before),
            None => None,
        },
    }
}

/// The same as a place.
fn pointed_by(text: &str, part: Part, before: Option<usize>) -> Pointed {
    match before {
        Some(before) => part.behind(text, before),
        None => part.at(Place {
            line: 1,
            column: None,
        }),
    }
}

/// What is told of a text that is read as no tree for this reason, whose nodes are these.
fn told_by(
    alloc: Global,
    text: &str,
    part: Part,
    outline: &Outline,
    why: Refusal,
) -> Result<PageTold, OutOfMemory>
    ensures { IfOk result (λ told. told.why ≡ Some why) }
{
    let reason = Reason::NoTree(why);
    let node = node_of(alloc, outline.nodes.as_slice(), &reason)?;
    // Only of a first document it is told what stands before a stream.
    let detail = hint(alloc, 2, text, outline, node, &reason)?;
    let before = before_of(outline, node, &why);
    Ok(PageTold {
        pointed: pointed_by(text, part, before),
        why: Some(why),
        detail,
    })
}

/// The same of a text.
fn told_of(alloc: Global, text: &str, part: Part, why: Refusal) -> Result<PageTold, OutOfMemory>
    ensures { IfOk result (λ told. told.why ≡ Some why) }
{
    let outline = outline_of(alloc, text)?;
    let told = told_by(alloc, text, part, &outline, why);
    drop(outline);
    told
}

/// Why a text is read as no tree; none where it is read as one.
fn reason_of(alloc: Global, text: &str) -> Result<Option<Refusal>, OutOfMemory>
    ensures { IfOk result (λ found. IfSome found (λ why. IsReasonIn (chars text.now) why)) }
{
    match read_text(alloc, text)? {
        Ok(value) => {
            drop(value);
            Ok(None)
        }
        Err(why) => Ok(Some(why)),
    }
}

/// What is told of NUL behind so many characters.
fn nul_told(alloc: Global, text: &str, part: Part, before: &str) -> Result<PageTold, OutOfMemory>
    ensures { IfOk result (λ told. told.why ≡ None) }
{
    let detail = Text::from_ascii(alloc, ": NUL")?;
    Ok(PageTold::of_detail(part.behind(text, before.chars().count()), detail))
}

/// What is told of a text that is read as no tree.
pub(crate) fn no_tree_told(alloc: Global, text: &str, part: Part) -> Result<PageTold, OutOfMemory>
    ensures { IfOk result (λ told. IfSome told.why (λ why. IsReasonIn (chars text.now) why)) }
{
    if let Some((before, _)) = split_at_byte(text, 0) {
        return nul_told(alloc, text, part, before);
    }
    match reason_of(alloc, text)? {
        None => Ok(PageTold::nothing()),
        Some(why) => told_of(alloc, text, part, why),
    }
}
