//! Whole numbers, in base ten.
ghost use Rattle.std.specs.Fmt.{signed_decimal};
ghost use Rattle.std.specs.Prelude.{◌≡◌, pos};
ghost use Rattle.snap_print.specs.Readable.{IsNumber};
ghost use Rattle.snap_json.specs.Strings.{json_string};
ghost use Rattle.snap_json.specs.Written.{whole, Wrote};

use crate::error::JsonError;
use crate::strings::write_string;
use crate::words::write_word;
use itoa::{Buffer, Integer};
use snap_content::Text;
use std::alloc::Global;

/// Adds the digits of a number.
pub fn write_number<I: Integer>(out: &mut Text, alloc: Global, number: I) -> Result<(), JsonError>
    ensures { Wrote result out.old out.new (whole (I.text number)) }
{
    let mut buffer = Buffer::new();
    write_word(out, alloc, buffer.format(number))
}

/// Adds the digits of a number in double quotes.
pub fn write_quoted_number<I: Integer>(
    out: &mut Text,
    alloc: Global,
    number: I,
) -> Result<(), JsonError>
    ensures { Wrote result out.old out.new (whole (json_string (I.text number))) }
{
    let mut buffer = Buffer::new();
    write_string(out, alloc, buffer.format(number))
}

/// Adds the digits of a byte.
pub fn write_byte(out: &mut Text, alloc: Global, number: u8) -> Result<(), JsonError>
    ensures wrote { Wrote result out.old out.new (whole (signed_decimal (pos number))) }
    ensures within { IsNumber (pos number) }
{
    write_number(out, alloc, number)
}

/// Adds the digits of a number of at most 64 bits without a sign.
pub fn write_unsigned(out: &mut Text, alloc: Global, number: u64) -> Result<(), JsonError>
    ensures wrote { Wrote result out.old out.new (whole (signed_decimal (pos number))) }
    ensures within { IsNumber (pos number) }
{
    write_number(out, alloc, number)
}

/// Adds the digits of a number of at most 64 bits with a sign.
pub fn write_signed(out: &mut Text, alloc: Global, number: i64) -> Result<(), JsonError>
    ensures wrote { Wrote result out.old out.new (whole (signed_decimal number)) }
    ensures within { IsNumber number }
{
    write_number(out, alloc, number)
}

/// Adds the digits of a number of at most 128 bits without a sign.
pub fn write_natural(out: &mut Text, alloc: Global, number: u128) -> Result<(), JsonError>
    ensures wrote { Wrote result out.old out.new (whole (signed_decimal (pos number))) }
    ensures within { IsNumber (pos number) }
{
    write_number(out, alloc, number)
}

/// Adds the digits of a number of at most 128 bits with a sign.
pub fn write_wide(out: &mut Text, alloc: Global, number: i128) -> Result<(), JsonError>
    ensures wrote { Wrote result out.old out.new (whole (signed_decimal number)) }
    ensures within { IsNumber number }
{
    write_number(out, alloc, number)
}
