//! The walk that writes a tree: each piece goes straight into the text.
ghost use Rattle.std.specs.Prelude.{◌+◌, OnOk};
ghost use Rattle.std.specs.List.{All};
ghost use Rattle.snap_json.specs.Within.{IsKeptWithin, IsPairWithin, IsFieldWithin, IsByteWithin};
ghost use Rattle.snap_json.specs.Walked.{value_written, bytes_written, item_list_written, pair_list_written, field_list_written, variant_opening, variant_written};
ghost use Rattle.snap_json.specs.Written.{Wrote};

use crate::error::JsonError;
use crate::format::Format;
use crate::keys::{write_key, write_name};
use crate::layout::{deeper, write_closing, write_comma, write_opening};
use crate::numbers::{write_byte, write_natural, write_signed, write_unsigned, write_wide};
use crate::strings::{write_character, write_string};
use crate::words::write_word;
use snap_content::{Content, Text};
use std::alloc::Global;

/// Adds a value, whose first line begins where the text ends. Further lines, and the end of a collection, begin at the column.
#[cycle(walk)]
pub fn write_value(
    out: &mut Text,
    alloc: Global,
    format: Format,
    column: usize,
    value: &Content,
) -> Result<(), JsonError>
    ensures wrote { Wrote result out.old out.new (value_written format column value.now) }
    ensures within { OnOk result (IsKeptWithin value.now) }
{
    match value {
        Content::Bool(true) => write_word(out, alloc, "true"),
        Content::Bool(false) => write_word(out, alloc, "false"),
        Content::U8(number) => write_byte(out, alloc, *number),
        Content::U16(number) => write_unsigned(out, alloc, u64::from(*number)),
        Content::U32(number) => write_unsigned(out, alloc, u64::from(*number)),
        Content::U64(number) => write_unsigned(out, alloc, *number),
        Content::U128(number) => write_natural(out, alloc, *number),
        Content::I8(number) => write_signed(out, alloc, i64::from(*number)),
        Content::I16(number) => write_signed(out, alloc, i64::from(*number)),
        Content::I32(number) => write_signed(out, alloc, i64::from(*number)),
        Content::I64(number) => write_signed(out, alloc, *number),
        Content::I128(number) => write_wide(out, alloc, *number),
        Content::Char(value) => write_character(out, alloc, *value),
        Content::String(text) => write_string(out, alloc, text.as_str()),
        Content::Bytes(bytes) => write_bytes(out, alloc, format, column, bytes.as_slice()),
        Content::None | Content::Unit | Content::UnitStruct(_) => write_word(out, alloc, "null"),
        Content::Some(inner) => write_value(out, alloc, format, column, inner),
        Content::NewtypeStruct(_, inner) => write_value(out, alloc, format, column, inner),
        Content::UnitVariant(_, _, variant) => write_string(out, alloc, variant.as_str()),
        Content::NewtypeVariant(_, _, variant, inner) => {
            write_newtype_variant(out, alloc, format, column, variant, inner)
        }
        Content::Seq(items) => write_items(out, alloc, format, column, items.as_slice()),
        Content::Tuple(items) => write_items(out, alloc, format, column, items.as_slice()),
        Content::TupleStruct(_, items) => {
            write_items(out, alloc, format, column, items.as_slice())
        }
        Content::TupleVariant(_, _, variant, items) => {
            write_tuple_variant(out, alloc, format, column, variant, items.as_slice())
        }
        Content::Map(pairs) => write_pairs(out, alloc, format, column, pairs.as_slice()),
        Content::Struct(_, fields) => write_fields(out, alloc, format, column, fields.as_slice()),
        Content::StructVariant(_, _, variant, fields) => {
            write_struct_variant(out, alloc, format, column, variant, fields.as_slice())
        }
    }
}

/// Adds bytes, as a list of numbers.
fn write_bytes(
    out: &mut Text,
    alloc: Global,
    format: Format,
    column: usize,
    bytes: &[u8],
) -> Result<(), JsonError>
    ensures wrote { Wrote result out.old out.new (bytes_written format column bytes.now) }
    ensures within { OnOk result (All IsByteWithin bytes.now) }
{
    let Some((first, rest)) = bytes.split_first() else {
        return write_word(out, alloc, "[]");
    };
    let inner = deeper(column)?;
    write_opening(out, alloc, format, inner, '[')?;
    write_byte(out, alloc, *first)?;
    for byte in rest {
        write_comma(out, alloc, format, inner)?;
        write_byte(out, alloc, *byte)?;
    }
    write_closing(out, alloc, format, column, ']')
}

/// Adds a list.
#[cycle(walk)]
fn write_items(
    out: &mut Text,
    alloc: Global,
    format: Format,
    column: usize,
    items: &[Content],
) -> Result<(), JsonError>
    ensures wrote { Wrote result out.old out.new (item_list_written format column items.now) }
    ensures within { OnOk result (All IsKeptWithin items.now) }
{
    let Some((first, rest)) = items.split_first() else {
        return write_word(out, alloc, "[]");
    };
    let inner = deeper(column)?;
    write_opening(out, alloc, format, inner, '[')?;
    write_value(out, alloc, format, inner, first)?;
    for item in rest {
        write_comma(out, alloc, format, inner)?;
        write_value(out, alloc, format, inner, item)?;
    }
    write_closing(out, alloc, format, column, ']')
}

/// Adds the object of a map.
#[cycle(walk)]
fn write_pairs(
    out: &mut Text,
    alloc: Global,
    format: Format,
    column: usize,
    pairs: &[(Content, Content)],
) -> Result<(), JsonError>
    ensures wrote { Wrote result out.old out.new (pair_list_written format column pairs.now) }
    ensures within { OnOk result (All IsPairWithin pairs.now) }
{
    let Some(((key, value), rest)) = pairs.split_first() else {
        return write_word(out, alloc, "{}");
    };
    let inner = deeper(column)?;
    write_opening(out, alloc, format, inner, '{')?;
    write_key(out, alloc, format, key)?;
    write_value(out, alloc, format, inner, value)?;
    for (key, value) in rest {
        write_comma(out, alloc, format, inner)?;
        write_key(out, alloc, format, key)?;
        write_value(out, alloc, format, inner, value)?;
    }
    write_closing(out, alloc, format, column, '}')
}

/// Adds the object of a struct.
#[cycle(walk)]
fn write_fields(
    out: &mut Text,
    alloc: Global,
    format: Format,
    column: usize,
    fields: &[(Text, Content)],
) -> Result<(), JsonError>
    ensures wrote { Wrote result out.old out.new (field_list_written format column fields.now) }
    ensures within { OnOk result (All IsFieldWithin fields.now) }
{
    let Some(((name, value), rest)) = fields.split_first() else {
        return write_word(out, alloc, "{}");
    };
    let inner = deeper(column)?;
    write_opening(out, alloc, format, inner, '{')?;
    write_name(out, alloc, format, name)?;
    write_value(out, alloc, format, inner, value)?;
    for (name, value) in rest {
        write_comma(out, alloc, format, inner)?;
        write_name(out, alloc, format, name)?;
        write_value(out, alloc, format, inner, value)?;
    }
    write_closing(out, alloc, format, column, '}')
}

/// Begins the object of a variant, up to what the variant holds.
fn write_variant(
    out: &mut Text,
    alloc: Global,
    format: Format,
    inner: usize,
    variant: &Text,
) -> Result<(), JsonError>
    ensures { Wrote result out.old out.new (variant_opening format inner variant.now) }
{
    write_opening(out, alloc, format, inner, '{')?;
    write_name(out, alloc, format, variant)
}

#[cycle(walk)]
fn write_newtype_variant(
    out: &mut Text,
    alloc: Global,
    format: Format,
    column: usize,
    variant: &Text,
    value: &Content,
) -> Result<(), JsonError>
    ensures wrote { Wrote result out.old out.new
        (variant_written format column (column + 2) variant.now
        (value_written format (column + 2) value.now)) }
    ensures within { OnOk result (IsKeptWithin value.now) }
{
    let inner = deeper(column)?;
    write_variant(out, alloc, format, inner, variant)?;
    write_value(out, alloc, format, inner, value)?;
    write_closing(out, alloc, format, column, '}')
}

#[cycle(walk)]
fn write_tuple_variant(
    out: &mut Text,
    alloc: Global,
    format: Format,
    column: usize,
    variant: &Text,
    items: &[Content],
) -> Result<(), JsonError>
    ensures wrote { Wrote result out.old out.new
        (variant_written format column (column + 2) variant.now (item_list_written format (column + 2) items.now)) }
    ensures within { OnOk result (All IsKeptWithin items.now) }
{
    let inner = deeper(column)?;
    write_variant(out, alloc, format, inner, variant)?;
    write_items(out, alloc, format, inner, items)?;
    write_closing(out, alloc, format, column, '}')
}

#[cycle(walk)]
fn write_struct_variant(
    out: &mut Text,
    alloc: Global,
    format: Format,
    column: usize,
    variant: &Text,
    fields: &[(Text, Content)],
) -> Result<(), JsonError>
    ensures wrote { Wrote result out.old out.new
        (variant_written format column (column + 2) variant.now (field_list_written format (column + 2) fields.now)) }
    ensures within { OnOk result (All IsFieldWithin fields.now) }
{
    let inner = deeper(column)?;
    write_variant(out, alloc, format, inner, variant)?;
    write_fields(out, alloc, format, inner, fields)?;
    write_closing(out, alloc, format, column, '}')
}
