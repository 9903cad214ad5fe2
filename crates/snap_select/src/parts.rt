//! Parts, read from the front of a text.
ghost use Rattle.std.specs.Prelude.{◌≡◌, true, false, ◌≤◌, ◌∷◌, ℕ, List, length, IfOk, IfErr, []};
ghost use Rattle.std.specs.Str.{chars};
ghost use Rattle.snap_select.specs.Pieces.{goes_on_dot, Fails};
ghost use Rattle.snap_select.specs.Grammar.{is_blank};
ghost use Rattle.snap_select.specs.Reading.{ready, first_dot, before_part};
ghost use Rattle.snap_select.specs.Stops.{ReadsPart, StopsPart};

use crate::deep::{has_deep, is_deep};
use crate::fault::SelectFault;
use crate::part::Part;
use crate::pieces::{goes_on_dot, past_blanks};
use crate::reading::{begins_segment, read_segment};
use crate::stop::Stop;
use snap_content::characters::{after_character, begins_with};
use std::alloc::Global;

/// The segments at the front, as many as there are, and what follows them.
fn read_segments<'a>(alloc: Global, text: &'a str) -> Result<(Part<'a>, &'a str), Stop<'a>>
    ensures ok { IfOk result (λ p.
        ReadsPart (λ ps. ready ps []) (chars text.now) p.0 (chars p.1.now)) }
    ensures stop { IfErr result (λ s. StopsPart (λ ps. ready ps []) (chars text.now) s) }
    ensures within { IfOk result (λ p. length (chars p.1.now) ≤ length (chars text.now)) }
{
    let mut segments = Vec::new(alloc);
    let mut rest = text;
    'segments: while begins_segment(rest) {
        match read_segment(alloc, rest) {
            Err(stop) => return Err(stop),
            Ok((segment, more)) => {
                if is_deep(&segment) && has_deep(segments.as_slice()) {
                    return Err(Stop::Fault(SelectFault::DeepTwice, rest));
                }
                segments.push(segment)?;
                rest = more;
            }
        }
    }
    Ok((Part::of(segments), rest))
}

/// The part after a dot that no name and no star follows, and what follows the part.
fn read_led<'a>(alloc: Global, text: &'a str) -> Result<(Part<'a>, &'a str), Stop<'a>>
    requires { goes_on_dot (chars text.now) ≡ false }
    ensures ok { IfOk result (λ p. ReadsPart first_dot (chars text.now) p.0 (chars p.1.now)) }
    ensures stop { IfErr result (λ s. StopsPart first_dot (chars text.now) s) }
    ensures within { IfOk result (λ p. length (chars p.1.now) ≤ length (chars text.now)) }
{
    if begins_with(text, '[') {
        read_segments(alloc, text)
    } else {
        Ok((Part::of(Vec::new(alloc)), text))
    }
}

/// The part that begins with a segment, and what follows the part.
fn read_unled<'a>(alloc: Global, text: &'a str) -> Result<(Part<'a>, &'a str), Stop<'a>>
    requires no_blank { Fails is_blank (chars text.now) }
    requires dotted { (cs : List ℕ) → chars text.now ≡ 46 ∷ cs → goes_on_dot cs ≡ true }
    ensures ok { IfOk result (λ p. ReadsPart before_part (chars text.now) p.0 (chars p.1.now)) }
    ensures stop { IfErr result (λ s. StopsPart before_part (chars text.now) s) }
    ensures within { IfOk result (λ p. length (chars p.1.now) ≤ length (chars text.now)) }
{
    if begins_segment(text) {
        read_segments(alloc, text)
    } else {
        Err(Stop::Fault(SelectFault::BadToken, text))
    }
}

/// The part at the front, after blanks, and what follows it.
pub(crate) fn read_part<'a>(alloc: Global, text: &'a str) -> Result<(Part<'a>, &'a str), Stop<'a>>
    ensures ok { IfOk result (λ p. ReadsPart before_part (chars text.now) p.0 (chars p.1.now)) }
    ensures stop { IfErr result (λ s. StopsPart before_part (chars text.now) s) }
    ensures within { IfOk result (λ p. length (chars p.1.now) ≤ length (chars text.now)) }
{
    let text = past_blanks(text);
    match after_character(text, '.') {
        Some(body) if !goes_on_dot(body) => read_led(alloc, body),
        _ => read_unled(alloc, text),
    }
}
