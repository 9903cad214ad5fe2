//! Texts of whole numbers of at most 128 bits.
ghost use Rattle.std.specs.Prelude.{◌≡◌, ◌^◌, true, pos, nat_lt, Some, None, option_map, if◌then◌else◌};
ghost use Rattle.std.specs.Str.{chars};
ghost use Rattle.std.specs.Str.Parse.{digits_value};
ghost use Rattle.snap_content.specs.Numbers.{is_digits};
ghost use Rattle.snap_content.specs.Plain.{number_tree};
ghost use Rattle.snap_print.specs.Typed.{below_zero, number_in};
ghost use Rattle.snap_content.specs.View.{tree};
ghost use Rattle.snap_emit.specs.PlainRead.{is_whole, whole_tree};

use snap_content::Content;
use snap_content::characters::split_first;
use snap_print::integers::is_integer;

/// The number in the narrowest kind that a reader makes.
fn natural_content(number: u128) -> Content
    ensures { tree result ≡ number_tree (pos number) }
{
    if number < 9_223_372_036_854_775_808 {
        return Content::I64(number as i64);
    }
    if number < 18_446_744_073_709_551_616 {
        return Content::U64(number as u64);
    }
    Content::U128(number)
}

/// The same of a number with a sign.
pub(crate) fn signed_content(number: i128) -> Content
    ensures { tree result ≡ number_tree number }
{
    if number >= 0 {
        return natural_content(number as u128);
    }
    if number >= -9_223_372_036_854_775_808 {
        return Content::I64(number as i64);
    }
    Content::I128(number)
}

/// The number of the digits, where it has 128 bits.
fn magnitude(digits: &str) -> Option<u128>
    ensures { is_digits (chars digits.now) ≡ true → result
        ≡ (if nat_lt (digits_value 10 (chars digits.now)) (2 ^ 128)
        then Some (digits_value 10 (chars digits.now)) else None) }
{
    match digits.parse::<u128>() {
        Ok(number) => Some(number),
        Err(_) => None,
    }
}

/// The tree of the digits' number.
fn natural(digits: &str) -> Option<Content>
    ensures { is_digits (chars digits.now) ≡ true → option_map tree result
        ≡ whole_tree (pos (digits_value 10 (chars digits.now))) }
{
    match magnitude(digits) {
        None => None,
        Some(number) => Some(natural_content(number)),
    }
}

/// The number of this magnitude below zero, and zero itself.
fn below(magnitude: u128) -> Option<i128>
    ensures { result ≡ (if nat_lt (2 ^ 127) magnitude then None else Some (below_zero magnitude)) }
{
    if magnitude == 0 {
        return Some(0);
    }
    if magnitude > 170_141_183_460_469_231_731_687_303_715_884_105_728 {
        return None;
    }
    Some(-((magnitude - 1) as i128) - 1)
}

/// The tree of the number below zero with these digits.
fn negative(digits: &str) -> Option<Content>
    ensures { is_digits (chars digits.now) ≡ true → option_map tree result
        ≡ whole_tree (below_zero (digits_value 10 (chars digits.now))) }
{
    match magnitude(digits) {
        None => None,
        Some(magnitude) => match below(magnitude) {
            None => None,
            Some(number) => Some(signed_content(number)),
        },
    }
}

/// The tree of the whole number that a text is, where it has at most 128 bits.
pub(crate) fn whole_number(text: &str) -> Option<Content>
    ensures { option_map tree result ≡ (if is_whole (chars text.now)
        then Some (number_tree (number_in 10 (chars text.now))) else None) }
{
    if !is_integer(text) {
        return None;
    }
    match split_first(text) {
        None => None,
        Some(('-', digits)) => negative(digits),
        Some(('+', digits)) => natural(digits),
        Some(_) => natural(text),
    }
}

/// Whether the text is that of a whole number of at most 128 bits.
pub(crate) fn is_whole(text: &str) -> bool
    ensures { result ≡ is_whole (chars text.now) }
{
    whole_number(text).is_some()
}
