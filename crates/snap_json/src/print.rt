//! The JSON text of a tree.
ghost use Rattle.std.specs.Prelude.{◌≡◌, IfOk, OnOk, IsErrOf, true, false};
ghost use Rattle.snap_content.specs.View.{tree};
ghost use Rattle.snap_print.specs.Readable.{IsWithin};
ghost use Rattle.snap_json.specs.JsonPlain.{json_plain};
ghost use Rattle.snap_json.specs.JsonText.{json_text, json_refuses, compact_text};
ghost use Rattle.snap_json.specs.declared.error.JsonError.TheVariants.{JsonKey};
ghost use Rattle.snap_json.specs.declared.format.Format.TheVariants.{Condensed, Pretty};

use crate::error::JsonError;
use crate::format::Format;
use crate::walk::write_value;
use snap_content::{Content, Text};
use std::alloc::Global;

/// The most characters that `to_string_compact` leaves on a single line.
const COMPACT_MAX_CHARS: usize = 120;

/// The text in a layout.
fn text_in(alloc: Global, format: Format, value: &Content) -> Result<Text, JsonError>
    ensures value { IfOk result (λ text. text ≡ json_text format (tree value.now)) }
    ensures accepted { OnOk result (json_refuses (tree value.now) ≡ false) }
    ensures within { OnOk result (IsWithin (json_plain (tree value.now))) }
    ensures refused { IsErrOf result JsonKey → json_refuses (tree value.now) ≡ true }
{
    let mut text = Text::empty();
    write_value(&mut text, alloc, format, 0, value)?;
    Ok(text)
}

/// The text of a value, without blanks.
pub fn to_string(alloc: Global, value: &Content) -> Result<Text, JsonError>
    ensures value { IfOk result (λ text. text ≡ json_text Condensed (tree value.now)) }
    ensures accepted { OnOk result (json_refuses (tree value.now) ≡ false) }
    ensures within { OnOk result (IsWithin (json_plain (tree value.now))) }
    ensures refused { IsErrOf result JsonKey → json_refuses (tree value.now) ≡ true }
{
    text_in(alloc, Format::Condensed, value)
}

/// The text of a value on a single line where that has at most 120 characters, else with each element on a line of its own.
pub fn to_string_compact(alloc: Global, value: &Content) -> Result<Text, JsonError>
    ensures value { IfOk result (λ text. text ≡ compact_text (tree value.now)) }
    ensures accepted { OnOk result (json_refuses (tree value.now) ≡ false) }
    ensures within { OnOk result (IsWithin (json_plain (tree value.now))) }
    ensures refused { IsErrOf result JsonKey → json_refuses (tree value.now) ≡ true }
{
    let line = text_in(alloc, Format::SingleLine, value)?;
    if line.len() <= COMPACT_MAX_CHARS {
        return Ok(line);
    }
    text_in(alloc, Format::Pretty, value)
}

/// The text of a value with each element on a line of its own.
pub fn to_string_pretty(alloc: Global, value: &Content) -> Result<Text, JsonError>
    ensures value { IfOk result (λ text. text ≡ json_text Pretty (tree value.now)) }
    ensures accepted { OnOk result (json_refuses (tree value.now) ≡ false) }
    ensures within { OnOk result (IsWithin (json_plain (tree value.now))) }
    ensures refused { IsErrOf result JsonKey → json_refuses (tree value.now) ≡ true }
{
    text_in(alloc, Format::Pretty, value)
}
