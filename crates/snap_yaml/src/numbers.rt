//! Texts of whole numbers of 64 bits, and of other numbers.
ghost use Rattle.std.specs.Prelude.{◌≡◌, ◌≤◌};
ghost use Rattle.std.specs.Str.{chars};
ghost use Rattle.snap_print.specs.Typed.{is_inf_word, is_named_number};
ghost use Rattle.snap_yaml.specs.Typing.{integer_of, behind_zero, prefixed_number, is_real_text};

use snap_content::characters::{is_same, split_first};
use snap_print::floats::is_float;

/// The number of 64 bits that digits of the base write, which a sign may precede.
pub(crate) fn integer(text: &str, base: u32) -> Option<i64>
    requires least { 2 ≤ base }
    requires most { base ≤ 36 }
    ensures { result ≡ integer_of base (chars text.now) }
{
    match i64::from_str_radix(text, base) {
        Ok(number) => Some(number),
        Err(_) => None,
    }
}

/// The number after `x`, in base sixteen, or `o`, in base eight.
fn integer_behind_zero(text: &str) -> Option<i64>
    ensures { result ≡ behind_zero (chars text.now) }
{
    match split_first(text) {
        Some(('x', digits)) => integer(digits, 16),
        Some(('o', digits)) => integer(digits, 8),
        _ => None,
    }
}

/// The number after `0x`, `0o` or a plus.
pub(crate) fn prefixed_integer(text: &str) -> Option<i64>
    ensures { result ≡ prefixed_number (chars text.now) }
{
    match split_first(text) {
        Some(('+', digits)) => integer(digits, 10),
        Some(('0', rest)) => integer_behind_zero(rest),
        _ => None,
    }
}

/// Whether the text is `.inf`, in one of its three spellings.
fn is_inf(text: &str) -> bool
    ensures { result ≡ is_inf_word (chars text.now) }
{
    is_same(text, ".inf") || is_same(text, ".Inf") || is_same(text, ".INF")
}

/// Whether the text is a word for what is infinite, or for what is no number.
fn is_named(text: &str) -> bool
    ensures { result ≡ is_named_number (chars text.now) }
{
    match split_first(text) {
        None => false,
        Some((first, rest)) => {
            let unsigned = if first == '+' || first == '-' {
                rest
            } else {
                text
            };
            is_inf(unsigned)
                || is_same(text, ".nan")
                || is_same(text, "NaN")
                || is_same(text, ".NAN")
        }
    }
}

/// Whether the text is that of a number. It is not computed.
pub(crate) fn is_real(text: &str) -> bool
    ensures { result ≡ is_real_text (chars text.now) }
{
    is_float(text) || is_named(text)
}
