//! A line to its record.
ghost use Rattle.std.specs.Prelude.{◌≡◌, ◌≢◌, List, MatchBool, IfOk, IfErr};
ghost use Rattle.std.specs.Str.{chars};
ghost use Rattle.snap_content.specs.View.{tree};
ghost use Rattle.snap_str.specs.Cut.{Lacks};
ghost use Rattle.snap_assert_settings.specs.Replaced.{ReplacementView};
ghost use Rattle.snap_mask.specs.Beginning.{beginning_of};
ghost use Rattle.snap_mask.specs.Rules.{AreRules};
ghost use Rattle.snap_mask.specs.Records.{IsValueOf, IsRecordOf, RefusesFor, RefusesValue};

use crate::beginning::{Beginning, beginning_in, beginning_of};
use crate::rules::masked;
use snap_assert_settings::redactions::Redactions;
use snap_content::{Content, Error, OutOfMemory, Text};
use snap_emit::yaml::parse_str;
use snap_json::{JsonError, to_string};
use snap_str::cut::split_at_byte;
use std::alloc::Global;

/// Why a line has no record.
#[derive(Clone, Copy, Debug, PartialEq, Eq)]
pub enum RecordError {
    /// It is no JSON text.
    BadLine,
    /// It holds a number that is no whole number of 128 bits.
    FloatLine,
    /// It has a key that JSON has no text for.
    JsonKey,
    OutOfMemory,
}

impl From<OutOfMemory> for RecordError {
    ghost use Rattle.std.specs.Prelude.{◌≡◌};
    ghost use Rattle.snap_mask.specs.declared.record.RecordError.TheVariants.{OutOfMemory};

    ghost from_gives = { λ _ e. e ≡ OutOfMemory };

    fn from(_: OutOfMemory) -> Self {
        RecordError::OutOfMemory
    }
}

impl From<JsonError> for RecordError {
    ghost use Rattle.std.specs.Prelude.{◌≡◌};
    ghost use Rattle.snap_mask.specs.Records.{json_stop};

    ghost from_gives = { λ error e. e ≡ json_stop error };

    fn from(error: JsonError) -> Self {
        match error {
            JsonError::JsonKey => RecordError::JsonKey,
            JsonError::OutOfMemory => RecordError::OutOfMemory,
        }
    }
}

impl From<Error> for RecordError {
    ghost use Rattle.std.specs.Prelude.{◌≡◌};
    ghost use Rattle.snap_mask.specs.Records.{parse_stop};

    ghost from_gives = { λ error e. e ≡ parse_stop error };

    fn from(error: Error) -> Self {
        match error {
            Error::OutOfMemory => RecordError::OutOfMemory,
            Error::FloatText(_) => RecordError::FloatLine,
            _ => RecordError::BadLine,
        }
    }
}

/// Whether NUL stands in the text. A reader of YAML would take it for the end, and lose what follows without a word.
fn holds_nul(text: &str) -> bool
    ensures { MatchBool result (Lacks 0 (chars text.now) → ⊥) (Lacks 0 (chars text.now)) }
{
    match split_at_byte(text, 0) {
        Some(_) => true,
        None => false,
    }
}

/// The value, where its JSON text begins so.
fn beginning_so(value: Content, beginning: Beginning) -> Result<Content, RecordError>
    ensures ok { IfOk result (λ made. (tree made ≡ tree value)
        × (beginning_of (tree made) ≡ beginning)) }
    ensures err { IfErr result (λ error. (error ≡ RecordError.BadLine)
        × (beginning_of (tree value) ≢ beginning)) }
{
    if beginning_of(&value) == beginning {
        Ok(value)
    } else {
        drop(value);
        Err(RecordError::BadLine)
    }
}

/// The value that a line is, where it is JSON.
fn value_of(alloc: Global, line: &[u8]) -> Result<Content, RecordError>
    ensures read { IfOk result (λ made. IsValueOf line.now (tree made)) }
    ensures why { IfErr result (λ error. RefusesValue error line.now) }
{
    let Ok(text) = str::from_utf8(line) else {
        return Err(RecordError::BadLine);
    };
    if holds_nul(text) {
        return Err(RecordError::BadLine);
    }
    let Some(beginning) = beginning_in(text) else {
        return Err(RecordError::BadLine);
    };
    let value = parse_str(alloc, text, &Text::empty())?;
    beginning_so(value, beginning)
}

/// The record of a line: the JSON text of its masked value.
pub fn record_of(alloc: Global, rules: &Redactions, line: &[u8]) -> Result<Text, RecordError>
    ensures given { (views : List ReplacementView) → AreRules rules.now views
        → IfOk result (λ made. IsRecordOf views line.now made) }
    ensures why { (views : List ReplacementView) → AreRules rules.now views
        → IfErr result (λ error. RefusesFor views error line.now) }
{
    let value = value_of(alloc, line)?;
    let value = masked(alloc, rules, value)?;
    let record = to_string(alloc, &value);
    drop(value);
    Ok(record?)
}
