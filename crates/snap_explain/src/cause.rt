//! The fault of a line.
ghost use Rattle.std.specs.Prelude.{◌≡◌, List, None, length, IfOk, MatchOption};
ghost use Rattle.std.specs.Str.{chars};
ghost use Rattle.snap_assert_settings.specs.Replaced.{ReplacementView};
ghost use Rattle.snap_mask.specs.Beginning.{beginning_in};
ghost use Rattle.snap_mask.specs.Rules.{AreRules};
ghost use Rattle.snap_explain.specs.Reasons.{HasRecord, IsFaultOf, IsShown};

use crate::fault::{LineFault, NumberKind, NumberPlace, fault_of};
use crate::place::{number_place, whole_value};
use crate::start::{after_blanks, start_of};
use snap_assert_settings::redactions::Redactions;
use snap_content::OutOfMemory;
use snap_content::characters::before_rest;
use snap_emit::read_text;
use snap_mask::beginning::beginning_in;
use snap_mask::record::{RecordError, record_of};
use snap_str::cut::split_at_byte;
use std::alloc::Global;

fn character_count(text: &str) -> usize
    ensures { result ≡ length (chars text.now) }
{
    text.chars().count()
}

/// Why no JSON text begins as this one, by what it begins with.
fn start_fault(text: &str) -> LineFault
    ensures { beginning_in (chars text.now) ≡ None → IsShown text.now result }
{
    let rest = after_blanks(text);
    let before = before_rest(text, rest);
    LineFault::Start {
        before: character_count(before),
        start: start_of(rest),
    }
}

/// Why a text that begins as a JSON text is none.
fn tree_fault(alloc: Global, text: &str) -> Result<LineFault, OutOfMemory>
    ensures { IfOk result (λ fault. IsShown text.now fault) }
{
    match read_text(alloc, text)? {
        Err(refusal) => Ok(fault_of(refusal)),
        Ok(value) => {
            drop(value);
            Ok(LineFault::Misfit)
        }
    }
}

/// Why a text is no JSON text.
fn text_fault(alloc: Global, text: &str) -> Result<LineFault, OutOfMemory>
    ensures { IfOk result (λ fault. IsShown text.now fault) }
{
    if let Some((before, _)) = split_at_byte(text, 0) {
        return Ok(LineFault::Nul {
            before: character_count(before),
        });
    }
    match beginning_in(text) {
        None => Ok(start_fault(text)),
        Some(_) => tree_fault(alloc, text),
    }
}

/// Why a line is no JSON text.
fn bad_fault(alloc: Global, line: &[u8]) -> Result<LineFault, OutOfMemory>
    ensures { IfOk result (λ fault. IsShown line.now fault) }
{
    match str::from_utf8(line) {
        Ok(text) => text_fault(alloc, text),
        Err(error) => Ok(LineFault::NotUtf8 {
            place: error.valid_up_to(),
        }),
    }
}

/// Where the number stands for which a line is refused.
fn number_in(alloc: Global, line: &[u8]) -> Result<NumberPlace, OutOfMemory> {
    match str::from_utf8(line) {
        Ok(text) => number_place(alloc, text),
        Err(_) => whole_value(alloc, NumberKind::Wide),
    }
}

/// Why a line that isn't empty has no record, where the filter's own reader refuses it.
pub fn fault_in(
    alloc: Global,
    rules: &Redactions,
    line: &[u8],
) -> Result<Option<LineFault>, OutOfMemory>
    ensures { (views : List ReplacementView) → AreRules rules.now views
        → IfOk result (λ found. MatchOption found (HasRecord views line.now)
        (λ fault. IsFaultOf views line.now fault)) }
{
    match record_of(alloc, rules, line) {
        Ok(record) => {
            drop(record);
            Ok(None)
        }
        Err(RecordError::BadLine) => Ok(Some(bad_fault(alloc, line)?)),
        Err(RecordError::FloatLine) => Ok(Some(LineFault::Number(number_in(alloc, line)?))),
        Err(RecordError::JsonKey) => Ok(Some(LineFault::Key)),
        Err(RecordError::OutOfMemory) => Err(OutOfMemory),
    }
}
