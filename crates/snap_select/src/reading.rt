//! Segments, read from the front of a text.
ghost use Rattle.std.specs.Prelude.{◌≡◌, ◌<◌, ◌≤◌, ◌∷◌, [], ℕ, true, List, length, Option, None, Some, IfOk, IfErr};
ghost use Rattle.std.specs.Str.{chars};
ghost use Rattle.snap_select.specs.Reading.{dot, bracket, in_quotes, colon};
ghost use Rattle.snap_select.specs.Stops.{GoesOn, StopsAt, ReadsWildcard, ReadsDotted, ReadsSegment, StopsReady, Closes, ClosesNot, IsNumberBehind};
ghost use Rattle.snap_select.specs.Pieces.{begins_segment, Fails};
ghost use Rattle.snap_select.specs.Grammar.{is_blank};

use crate::fault::SelectFault;
use crate::pieces::{bound_of, index_of, past_blanks, split_name, split_number, unsigned};
use crate::quotes::read_quoted;
use crate::segment::Segment;
use crate::stop::Stop;
use snap_content::Lent;
use snap_content::characters::{after_character, begins_with};
use std::alloc::Global;

/// The segment, where a closing bracket follows after blanks, and the text after that.
fn closed<'a>(segment: Segment<'a>, text: &'a str) -> Result<(Segment<'a>, &'a str), Stop<'a>>
    ensures ok { IfOk result (λ p.
        (p.0 ≡ segment.entry) × Closes (chars text.now) (chars p.1.now)) }
    ensures stop { IfErr result (λ s. ClosesNot (chars text.now) s) }
{
    let text = past_blanks(text);
    match after_character(text, ']') {
        Some(rest) => Ok((segment, rest)),
        None => Err(Stop::Fault(SelectFault::BadToken, text)),
    }
}

/// The range from the first bound up to the one at the front, and the text after the closing bracket.
fn read_second<'a>(from: Option<i64>, text: &'a str) -> Result<(Segment<'a>, &'a str), Stop<'a>>
    requires no_blank { Fails is_blank (chars text.now) }
    requires no_bracket { (cs : List ℕ) → chars text.now ≡ 93 ∷ cs → ⊥ }
    ensures ok { IfOk result (λ p. GoesOn (colon from) (chars text.now) p.0 (chars p.1.now)) }
    ensures stop { IfErr result (λ s. StopsAt (colon from) (chars text.now) s) }
    ensures shorter { IfOk result (λ p. length (chars p.1.now) < length (chars text.now)) }
{
    match split_number(text) {
        None => Err(Stop::Fault(SelectFault::BadToken, unsigned(text))),
        Some((number, rest)) => match bound_of(number) {
            None => Err(Stop::Fault(SelectFault::TooLarge, text)),
            Some(bound) => closed(Segment::Range(from, Some(bound)), rest),
        },
    }
}

/// The range from that bound, after its colon, and the text after the closing bracket.
fn read_to<'a>(from: Option<i64>, text: &'a str) -> Result<(Segment<'a>, &'a str), Stop<'a>>
    ensures ok { IfOk result (λ p. GoesOn (colon from) (chars text.now) p.0 (chars p.1.now)) }
    ensures stop { IfErr result (λ s. StopsAt (colon from) (chars text.now) s) }
    ensures shorter { IfOk result (λ p. length (chars p.1.now) < length (chars text.now)) }
{
    let text = past_blanks(text);
    match after_character(text, ']') {
        Some(rest) => Ok((Segment::Range(from, None), rest)),
        None => read_second(from, text),
    }
}

/// The index of that number, which no colon follows, and the text after the closing bracket.
fn read_index<'a>(
    text: &'a str,
    number: &'a str,
    rest: &'a str,
) -> Result<(Segment<'a>, &'a str), Stop<'a>>
    requires number { IsNumberBehind (chars text.now) (chars number.now) (chars rest.now) }
    requires no_colon { (cs : List ℕ) → chars rest.now ≡ 58 ∷ cs → ⊥ }
    ensures ok { IfOk result (λ p. GoesOn bracket (chars text.now) p.0 (chars p.1.now)) }
    ensures stop { IfErr result (λ s. StopsAt bracket (chars text.now) s) }
    ensures shorter { IfOk result (λ p. length (chars p.1.now) < length (chars text.now)) }
{
    if begins_with(number, '-') {
        return match bound_of(number) {
            None => Err(Stop::Fault(SelectFault::TooLarge, text)),
            Some(_) => Err(Stop::Fault(SelectFault::BadToken, rest)),
        };
    }
    match index_of(number) {
        None => Err(Stop::Fault(SelectFault::TooLarge, text)),
        Some(index) => closed(Segment::Index(index), rest),
    }
}

/// The index, or the range, that begins with a number, and the text after the closing bracket.
fn read_number<'a>(text: &'a str) -> Result<(Segment<'a>, &'a str), Stop<'a>>
    requires no_blank { Fails is_blank (chars text.now) }
    requires no_quote { (cs : List ℕ) → chars text.now ≡ 34 ∷ cs → ⊥ }
    requires no_bracket { (cs : List ℕ) → chars text.now ≡ 93 ∷ cs → ⊥ }
    requires no_colon { (cs : List ℕ) → chars text.now ≡ 58 ∷ cs → ⊥ }
    ensures ok { IfOk result (λ p. GoesOn bracket (chars text.now) p.0 (chars p.1.now)) }
    ensures stop { IfErr result (λ s. StopsAt bracket (chars text.now) s) }
    ensures shorter { IfOk result (λ p. length (chars p.1.now) < length (chars text.now)) }
{
    let Some((number, rest)) = split_number(text) else {
        return Err(Stop::Fault(SelectFault::BadToken, unsigned(text)));
    };
    let rest = past_blanks(rest);
    match after_character(rest, ':') {
        None => read_index(text, number, rest),
        Some(later) => match bound_of(number) {
            None => Err(Stop::Fault(SelectFault::TooLarge, text)),
            Some(bound) => read_to(Some(bound), later),
        },
    }
}

/// The index, or the range, after an opening bracket and blanks, and the text after the closing bracket.
fn read_numbers<'a>(text: &'a str) -> Result<(Segment<'a>, &'a str), Stop<'a>>
    requires no_blank { Fails is_blank (chars text.now) }
    requires no_quote { (cs : List ℕ) → chars text.now ≡ 34 ∷ cs → ⊥ }
    ensures ok { IfOk result (λ p. GoesOn bracket (chars text.now) p.0 (chars p.1.now)) }
    ensures stop { IfErr result (λ s. StopsAt bracket (chars text.now) s) }
    ensures shorter { IfOk result (λ p. length (chars p.1.now) < length (chars text.now)) }
{
    if let Some(rest) = after_character(text, ']') {
        return Ok((Segment::Range(None, None), rest));
    }
    match after_character(text, ':') {
        Some(later) => read_to(None, later),
        None => read_number(text),
    }
}

/// The key after an opening quote, and the text after the closing bracket.
fn read_key<'a>(alloc: Global, text: &'a str) -> Result<(Segment<'a>, &'a str), Stop<'a>>
    ensures ok { IfOk result (λ p. GoesOn (in_quotes []) (chars text.now) p.0 (chars p.1.now)) }
    ensures stop { IfErr result (λ s. StopsAt (in_quotes []) (chars text.now) s) }
    ensures shorter { IfOk result (λ p. length (chars p.1.now) < length (chars text.now)) }
{
    match read_quoted(alloc, text)? {
        None => Err(Stop::Fault(SelectFault::BadToken, "")),
        Some((key, rest)) => closed(Segment::Key(key), rest),
    }
}

/// The segment after an opening bracket, and the text after the closing one.
fn read_bracketed<'a>(alloc: Global, text: &'a str) -> Result<(Segment<'a>, &'a str), Stop<'a>>
    ensures ok { IfOk result (λ p. GoesOn bracket (chars text.now) p.0 (chars p.1.now)) }
    ensures stop { IfErr result (λ s. StopsAt bracket (chars text.now) s) }
    ensures shorter { IfOk result (λ p. length (chars p.1.now) < length (chars text.now)) }
{
    let text = past_blanks(text);
    match after_character(text, '"') {
        None => read_numbers(text),
        Some(inside) => read_key(alloc, inside),
    }
}

/// The wildcard after a dot and a star, and the text after it.
fn read_wildcard<'a>(text: &'a str) -> (Segment<'a>, &'a str)
    ensures read { ReadsWildcard (chars text.now) result.0 (chars result.1.now) }
    ensures within { length (chars result.1.now) ≤ length (chars text.now) }
{
    match after_character(text, '*') {
        None => (Segment::Wildcard, text),
        Some(rest) => (Segment::DeepWildcard, rest),
    }
}

/// The segment after a dot, and the text after it.
fn read_dotted<'a>(text: &'a str) -> Result<(Segment<'a>, &'a str), Stop<'a>>
    ensures ok { IfOk result (λ p. ReadsDotted (chars text.now) p.0 (chars p.1.now)) }
    ensures stop { IfErr result (λ s. StopsAt dot (chars text.now) s) }
    ensures shorter { IfOk result (λ p. length (chars p.1.now) < length (chars text.now)) }
{
    if let Some(rest) = after_character(text, '*') {
        return Ok(read_wildcard(rest));
    }
    match split_name(text) {
        None => Err(Stop::Fault(SelectFault::BadToken, text)),
        Some((name, rest)) => Ok((Segment::Key(Lent::borrowed(name)), rest)),
    }
}

/// Whether a dot or a bracket is at the front, with which a segment begins.
pub(crate) fn begins_segment(text: &str) -> bool
    ensures { result ≡ begins_segment (chars text.now) }
{
    begins_with(text, '.') || begins_with(text, '[')
}

/// The first segment of what is left, and the text after it.
pub(crate) fn read_segment<'a>(
    alloc: Global,
    text: &'a str,
) -> Result<(Segment<'a>, &'a str), Stop<'a>>
    requires { begins_segment (chars text.now) ≡ true }
    ensures ok { IfOk result (λ p. ReadsSegment (chars text.now) p.0 (chars p.1.now)) }
    ensures stop { IfErr result (λ s. StopsReady (chars text.now) s) }
    ensures shorter { IfOk result (λ p. length (chars p.1.now) < length (chars text.now)) }
{
    match after_character(text, '.') {
        Some(rest) => read_dotted(rest),
        None => match after_character(text, '[') {
            Some(inside) => read_bracketed(alloc, inside),
            None => Err(Stop::Fault(SelectFault::BadToken, text)),
        },
    }
}
