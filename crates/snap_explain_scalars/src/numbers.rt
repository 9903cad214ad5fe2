//! Numbers and dates.
ghost use Rattle.std.specs.Prelude.{◌≡◌, None, Some, MatchOption};
ghost use Rattle.std.specs.Char.{is_ascii_digit};
ghost use Rattle.std.specs.List.{list_all, list_any};
ghost use Rattle.std.specs.Str.{chars};
ghost use Rattle.snap_content.specs.Numbers.{past_sign};
ghost use Rattle.snap_explain_scalars.specs.Numbers.{after_base, fits, fits_sign, hexadecimal_elsewhere, is_binary, is_binary_character, is_date, is_decimal_character, is_grouped, is_hexadecimal, is_hexadecimal_character, is_hexadecimal_here, is_underscore, is_zero_led, number_elsewhere, stays_short};

use crate::otherwise::Otherwise;
use snap_content::characters::split_first;
use snap_print::integers::{is_behind_plus, is_empty_text, is_octal};

/// What follows the sign, where the text begins with one.
fn past_sign(text: &str) -> &str
    ensures { chars result.now ≡ past_sign (chars text.now) }
{
    match split_first(text) {
        Some(('+' | '-', rest)) => rest,
        _ => text,
    }
}

fn is_decimal_character(c: char) -> bool
    ensures { result ≡ is_decimal_character c }
{
    c.is_ascii_digit() || c == '_'
}

fn is_binary_character(c: char) -> bool
    ensures { result ≡ is_binary_character c }
{
    c == '0' || c == '1' || c == '_'
}

fn is_hexadecimal_character(c: char) -> bool
    ensures { result ≡ is_hexadecimal_character c }
{
    c.is_ascii_hexdigit() || c == '_'
}

fn holds_underscore(text: &str) -> bool
    ensures { result ≡ list_any is_underscore (chars text.now) }
{
    text.chars().any(|c| c == '_')
}

/// Whether all characters are digits.
fn holds_digits(text: &str) -> bool
    ensures { result ≡ list_all is_ascii_digit (chars text.now) }
{
    text.chars().all(|c| c.is_ascii_digit())
}

/// Whether all are digits or underscores.
fn holds_decimal(text: &str) -> bool
    ensures { result ≡ list_all is_decimal_character (chars text.now) }
{
    text.chars().all(|c| is_decimal_character(c))
}

/// The same in base two.
fn holds_binary(text: &str) -> bool
    ensures { result ≡ list_all is_binary_character (chars text.now) }
{
    text.chars().all(|c| is_binary_character(c))
}

/// The same in base sixteen.
fn holds_hexadecimal(text: &str) -> bool
    ensures { result ≡ list_all is_hexadecimal_character (chars text.now) }
{
    text.chars().all(|c| is_hexadecimal_character(c))
}

/// What follows a zero and a letter, where the text begins with them.
fn after_base(text: &str, letter: char) -> Option<&str>
    ensures { MatchOption result (after_base letter (chars text.now) ≡ None)
        (λ rest. after_base letter (chars text.now) ≡ Some (chars rest.now)) }
{
    match split_first(text) {
        Some(('0', rest)) => match split_first(rest) {
            Some((c, digits)) if c == letter => Some(digits),
            _ => None,
        },
        _ => None,
    }
}

/// Whether digits follow a zero, and nothing else.
fn is_zero_led(text: &str) -> bool
    ensures { result ≡ is_zero_led (chars text.now) }
{
    match split_first(text) {
        Some(('0', rest)) => {
            if is_empty_text(rest) {
                return false;
            }
            holds_digits(rest)
        }
        _ => false,
    }
}

/// Whether the text is digits and underscores, begins with a digit, and has an underscore.
fn is_grouped(text: &str) -> bool
    ensures { result ≡ is_grouped (chars text.now) }
{
    match split_first(text) {
        None => false,
        Some((first, rest)) => {
            if !first.is_ascii_digit() || !holds_underscore(rest) {
                return false;
            }
            holds_decimal(rest)
        }
    }
}

/// Whether the text is `0b`, and digits of base two with underscores.
fn is_binary(text: &str) -> bool
    ensures { result ≡ is_binary (chars text.now) }
{
    match after_base(text, 'b') {
        None => false,
        Some(digits) => {
            if is_empty_text(digits) {
                return false;
            }
            holds_binary(digits)
        }
    }
}

/// Whether the text is `0x`, and digits of base sixteen with underscores.
fn is_hexadecimal(text: &str) -> bool
    ensures { result ≡ is_hexadecimal (chars text.now) }
{
    match after_base(text, 'x') {
        None => false,
        Some(digits) => {
            if is_empty_text(digits) {
                return false;
            }
            holds_hexadecimal(digits)
        }
    }
}

/// Whether the text is digits of base sixteen whose number has 64 bits with its sign. The empty text is zero.
fn is_short(text: &str) -> bool
    ensures { result ≡ stays_short 0 (chars text.now) }
{
    let mut number: u128 = 0;
    let mut rest = text;
    while let Some((c, next)) = split_first(rest) {
        if number >= 9_223_372_036_854_775_808 {
            return false;
        }
        match c.to_digit(16) {
            None => return false,
            Some(digit) => number = number * 16 + digit as u128,
        }
        rest = next;
    }
    number < 9_223_372_036_854_775_808
}

/// Whether the text is `0x`, and what our reader takes for a number of base sixteen.
fn is_hexadecimal_here(text: &str) -> bool
    ensures { result ≡ is_hexadecimal_here (chars text.now) }
{
    match after_base(text, 'x') {
        None => false,
        Some(signed) => {
            let digits = past_sign(signed);
            if is_empty_text(digits) {
                return false;
            }
            is_short(digits)
        }
    }
}

/// Whether the character fits a sign of a shape: a digit where that is a zero, and else the sign itself.
fn fits_sign(sign: u8, c: char) -> bool
    ensures { result ≡ fits_sign sign c }
{
    if sign == b'0' {
        c.is_ascii_digit()
    } else {
        c as u32 == sign as u32
    }
}

/// Whether the characters of the text fit those of the shape.
fn fits(shape: &[u8], text: &str) -> bool
    ensures { result ≡ fits shape.now (chars text.now) }
{
    match split_first(text) {
        None => match shape.split_first() {
            None => true,
            Some(_) => false,
        },
        Some((c, rest)) => match shape.split_first() {
            None => false,
            Some((sign, signs)) => fits_sign(*sign, c) && fits(signs, rest),
        },
    }
}

/// Whether the text is four digits, two and two, with dashes between.
fn is_date(text: &str) -> bool
    ensures { result ≡ is_date (chars text.now) }
{
    fits("0000-00-00".as_bytes(), text)
}

/// How others take a number of base sixteen, by who takes it for one.
fn hexadecimal_elsewhere(is_here: bool, is_elsewhere: bool) -> Option<Otherwise>
    ensures { result ≡ hexadecimal_elsewhere is_here is_elsewhere }
{
    match (is_here, is_elsewhere) {
        (true, false) => Some(Otherwise::Text),
        (false, true) => Some(Otherwise::Number),
        _ => None,
    }
}

/// How others take a scalar that begins with a digit or a sign.
pub(crate) fn number_elsewhere(text: &str) -> Option<Otherwise>
    ensures { result ≡ number_elsewhere (chars text.now) }
{
    let unsigned = past_sign(text);
    if is_zero_led(unsigned) {
        return Some(Otherwise::TextOrNumber);
    }
    if is_octal(text) || is_behind_plus(text) {
        return Some(Otherwise::Text);
    }
    if is_grouped(unsigned) || is_binary(unsigned) {
        return Some(Otherwise::Number);
    }
    if is_date(text) {
        return Some(Otherwise::Date);
    }
    hexadecimal_elsewhere(is_hexadecimal_here(text), is_hexadecimal(unsigned))
}
