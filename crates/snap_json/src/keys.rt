//! The keys of objects, up to their values.
ghost use Rattle.std.specs.Prelude.{◌≡◌};
ghost use Rattle.snap_content.specs.Plain.{text};
ghost use Rattle.snap_content.specs.View.{tree};
ghost use Rattle.snap_json.specs.JsonPlain.{text_of_key, json_key, key_plain};
ghost use Rattle.snap_json.specs.Written.{key_written, member_written, Wrote};

use crate::error::JsonError;
use crate::format::Format;
use crate::layout::write_colon;
use crate::numbers::write_quoted_number;
use crate::strings::write_string;
use snap_content::{Content, Text};
use std::alloc::Global;

/// Adds a key that is no wrapper.
fn write_resolved_key(out: &mut Text, alloc: Global, key: &Content) -> Result<(), JsonError>
    ensures { Wrote result out.old out.new (key_written (key_plain (text_of_key (tree key.now)))) }
{
    match key {
        Content::String(text) => write_string(out, alloc, text.as_str()),
        Content::UnitVariant(_, _, variant) => write_string(out, alloc, variant.as_str()),
        Content::U8(number) => write_quoted_number(out, alloc, *number),
        Content::U16(number) => write_quoted_number(out, alloc, *number),
        Content::U32(number) => write_quoted_number(out, alloc, *number),
        Content::U64(number) => write_quoted_number(out, alloc, *number),
        Content::U128(number) => write_quoted_number(out, alloc, *number),
        Content::I8(number) => write_quoted_number(out, alloc, *number),
        Content::I16(number) => write_quoted_number(out, alloc, *number),
        Content::I32(number) => write_quoted_number(out, alloc, *number),
        Content::I64(number) => write_quoted_number(out, alloc, *number),
        Content::I128(number) => write_quoted_number(out, alloc, *number),
        _ => Err(JsonError::JsonKey),
    }
}

/// Adds the key of a map. One that is neither a text, nor a unit variant, nor a whole number, inside wrappers, is refused.
pub fn write_key(
    out: &mut Text,
    alloc: Global,
    format: Format,
    key: &Content,
) -> Result<(), JsonError>
    ensures { Wrote result out.old out.new (member_written format (key_plain (json_key (tree key.now)))) }
{
    write_resolved_key(out, alloc, key.resolve_inner())?;
    write_colon(out, alloc, format)
}

/// Adds the name of a field or of a variant.
pub fn write_name(
    out: &mut Text,
    alloc: Global,
    format: Format,
    name: &Text,
) -> Result<(), JsonError>
    ensures { Wrote result out.old out.new (member_written format (text name.now)) }
{
    write_string(out, alloc, name.as_str())?;
    write_colon(out, alloc, format)
}
