//! Selectors.
ghost use Rattle.std.specs.Prelude.{◌≡◌, ◌≤◌, ◌<◌, ◌+◌, ◌^◌, ◌∷◌, [], length, IfOk, IfErr, IfSome, MatchOption};
ghost use Rattle.std.specs.Str.{chars};
ghost use Rattle.snap_select.specs.Grammar.{IsSelector};
ghost use Rattle.snap_select.specs.Reading.{outcome, before_part, behind_part, selects};
ghost use Rattle.snap_select.specs.Refusal.{IsRefused};
ghost use Rattle.snap_select.specs.Stops.{IsStop, StopsPart};
ghost use Rattle.snap_select.specs.Parts.{Parts};

use crate::fault::{SelectError, SelectFault, SelectorParseError};
use crate::part::Part;
use crate::parts::read_part;
use crate::pieces::past_blanks;
use crate::segment::Segment;
use crate::stop::Stop;
use snap_content::OutOfMemory;
use snap_content::characters::{after_character, split_first};
use std::alloc::Global;

/// A way from a tree to parts of it: which paths it selects.
#[derive(Debug, Drop)]
pub struct Selector<'a> {
    pub(crate) parts: Vec<Part<'a>>,
}

/// What follows the comma after a part; none where the text ends.
fn behind_comma<'a>(text: &'a str) -> Result<Option<&'a str>, Stop<'a>>
    ensures ok { IfOk result (λ found. (ps : Parts)
        → MatchOption found (outcome (behind_part ps) (chars text.now) ≡ selects ps)
        (λ rest. outcome (behind_part ps) (chars text.now)
        ≡ outcome (before_part ps) (chars rest.now))) }
    ensures stop { IfErr result (λ s. StopsPart behind_part (chars text.now) s) }
    ensures shorter { IfOk result (λ found. IfSome found
        (λ rest. length (chars rest.now) < length (chars text.now))) }
{
    let rest = past_blanks(text);
    match after_character(rest, ',') {
        Some(later) => Ok(Some(later)),
        None if split_first(rest).is_none() => Ok(None),
        None => Err(Stop::Fault(SelectFault::BadToken, rest)),
    }
}

/// The parts of a selector's text.
fn read_parts<'a>(alloc: Global, text: &'a str) -> Result<Vec<Part<'a>>, Stop<'a>>
    ensures ok { IfOk result (λ parts. outcome (before_part []) (chars text.now)
        ≡ selects parts.items) }
    ensures stop { IfErr result (λ s. IsStop (outcome (before_part []) (chars text.now)) s) }
{
    let mut parts = Vec::new(alloc);
    let mut rest = text;
    'parts: loop {
        match read_part(alloc, rest) {
            Err(stop) => return Err(stop),
            Ok((part, more)) => {
                parts.push(part)?;
                match behind_comma(more) {
                    Err(stop) => return Err(stop),
                    Ok(None) => return Ok(parts),
                    Ok(Some(later)) => rest = later,
                }
            }
        }
    }
}

/// How many characters the text has.
fn characters(text: &str) -> usize
    ensures count { result ≡ length (chars text.now) }
    ensures small { result < 2 ^ 63 }
{
    text.chars().count()
}

/// The place where the rest of the text begins, in characters counted from 1.
fn column(text: &str, rest: &str) -> usize
    requires { length (chars rest.now) ≤ length (chars text.now) }
    ensures { result + length (chars rest.now) ≡ length (chars text.now) + 1 }
{
    characters(text) - characters(rest) + 1
}

/// Why the text is refused: the fault and its column, or out of memory where the reading stopped for that alone.
fn refusal(text: &str, stop: Stop<'_>) -> SelectError
    requires { IsStop (outcome (before_part []) (chars text.now)) stop }
    ensures refused { IsRefused (chars text.now) result }
    ensures memory { result ≡ SelectError.OutOfMemory → stop.entry ≡ Stop.OutOfMemory }
{
    match stop {
        Stop::OutOfMemory => SelectError::OutOfMemory,
        Stop::Fault(kind, rest) => {
            SelectError::Parse(SelectorParseError::new(kind, column(text, rest)))
        }
    }
}

impl<'a> Selector<'a> {
    ghost use Rattle.std.specs.Prelude.{Some, slice_get};
    ghost use Rattle.snap_select.specs.Selectors.{parts_of};

    /// How many parts it has.
    pub fn parts(&self) -> usize
        ensures { result ≡ length (parts_of self.now) }
    {
        self.parts.len()
    }

    /// The segments of the part at that place, counted from 0; none where there is no such part.
    pub fn segments(&self, part: usize) -> Option<&[Segment<'a>]>
        ensures { MatchOption result (length (parts_of self.now) ≤ part)
            (λ segments. slice_get (parts_of self.now) part ≡ Some segments.now) }
    {
        match self.parts.get(part) {
            Some(part) => Some(part.segments()),
            None => None,
        }
    }

    /// The selector that the text spells: parts with commas between them, and blanks or tabs round them. A part is `.` for
    /// the root, or a segment for each step: `.key` or `["key"]`, `[index]`, `.*`, `[from:to]` with both bounds or without,
    /// `[]` for every item, and at most once `.**`. Blanks may stand inside brackets.
    /// A key after a dot begins with `_`, `$` or a character that begins an identifier, and goes on as an identifier does.
    /// In quotes a backslash is dropped, and the character after it kept. A dot may stand before a first bracket.
    /// Any other text is refused at its first fault: `TooLarge` at a number that doesn't fit, 64 bits for an index and 64 bits
    /// with a sign for a bound, `DeepTwice` at the second `.**` of a part, `BadToken` at the character with which no selector
    /// goes on.
    pub fn parse(alloc: Global, selector: &'a str) -> Result<Selector<'a>, SelectError>
        ensures ok { IfOk result (λ made. IsSelector (chars selector.now) (parts_of made)) }
        ensures refused { IfErr result (λ e. IsRefused (chars selector.now) e) }
    {
        match read_parts(alloc, selector) {
            Ok(parts) => Ok(Selector { parts }),
            Err(stop) => Err(refusal(selector, stop)),
        }
    }
}
