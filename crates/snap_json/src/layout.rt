//! What stands between the values of a JSON text.
ghost use Rattle.std.specs.Prelude.{◌≡◌, ◌+◌, ◌^◌, ◌≤◌, IfOk, IfErr};
ghost use Rattle.snap_json.specs.Layout.{blanks, break_at, opening, closing, comma, colon};
ghost use Rattle.snap_json.specs.Written.{whole, Wrote};

use crate::error::JsonError;
use crate::format::Format;
use crate::words::{write_char, write_word};
use snap_content::{OutOfMemory, Text};
use std::alloc::Global;

/// Two columns further in. Where no number is left for the column, no memory would hold the blanks of its lines.
pub fn deeper(column: usize) -> Result<usize, OutOfMemory>
    ensures ok { IfOk result (λ inner. inner ≡ column + 2) }
    ensures err { IfErr result (λ _. 2 ^ 64 ≤ column + 2) }
{
    match column.checked_add(2) {
        Some(inner) => Ok(inner),
        None => Err(OutOfMemory),
    }
}

/// Adds blanks, eight at a time as far as that goes.
fn write_blanks(out: &mut Text, alloc: Global, count: usize) -> Result<(), JsonError>
    ensures { Wrote result out.old out.new (whole (blanks count)) }
{
    let mut done = 0;
    'eights: while count - done >= 8 {
        write_word(out, alloc, "        ")?;
        done += 8;
    }
    'ones: while done < count {
        write_char(out, alloc, ' ')?;
        done += 1;
    }
    Ok(())
}

/// Ends the line, and begins the next at the column, where each element has a line of its own.
fn write_break(
    out: &mut Text,
    alloc: Global,
    format: Format,
    column: usize,
) -> Result<(), JsonError>
    ensures { Wrote result out.old out.new (whole (break_at format column)) }
{
    match format {
        Format::Condensed => write_word(out, alloc, ""),
        Format::SingleLine => write_word(out, alloc, ""),
        Format::Pretty => {
            write_char(out, alloc, '\n')?;
            write_blanks(out, alloc, column)
        }
    }
}

/// Begins a collection, up to its first element at the column.
pub fn write_opening(
    out: &mut Text,
    alloc: Global,
    format: Format,
    column: usize,
    bracket: char,
) -> Result<(), JsonError>
    ensures { Wrote result out.old out.new (whole (opening format column bracket)) }
{
    write_char(out, alloc, bracket)?;
    write_break(out, alloc, format, column)
}

/// Ends a collection that stands at the column.
pub fn write_closing(
    out: &mut Text,
    alloc: Global,
    format: Format,
    column: usize,
    bracket: char,
) -> Result<(), JsonError>
    ensures { Wrote result out.old out.new (whole (closing format column bracket)) }
{
    write_break(out, alloc, format, column)?;
    write_char(out, alloc, bracket)
}

/// Adds what stands before a further element at the column.
pub fn write_comma(
    out: &mut Text,
    alloc: Global,
    format: Format,
    column: usize,
) -> Result<(), JsonError>
    ensures { Wrote result out.old out.new (whole (comma format column)) }
{
    match format {
        Format::Condensed => write_char(out, alloc, ','),
        Format::SingleLine => write_word(out, alloc, ", "),
        Format::Pretty => {
            write_char(out, alloc, ',')?;
            write_break(out, alloc, format, column)
        }
    }
}

/// Adds what stands between a key and its value.
pub fn write_colon(out: &mut Text, alloc: Global, format: Format) -> Result<(), JsonError>
    ensures { Wrote result out.old out.new (whole (colon format)) }
{
    match format {
        Format::Condensed => write_char(out, alloc, ':'),
        Format::SingleLine => write_word(out, alloc, ": "),
        Format::Pretty => write_word(out, alloc, ": "),
    }
}
