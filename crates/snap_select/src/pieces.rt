//! Pieces at the front of a text: blanks, a name, and numbers.
ghost use Rattle.std.specs.Prelude.{◌≡◌, ◌<◌, ◌≤◌, ◌^◌, ◌++◌, ℕ, List, length, false, MatchOption, IfSome};
ghost use Rattle.std.specs.Str.{chars};
ghost use Rattle.std.specs.Str.Parse.{IsNumeral, digits_value};
ghost use Rattle.unicode_ident.specs.Ident.{is_xid_continue};
ghost use Rattle.snap_select.specs.Grammar.{begins_name, is_blank, FitsBound};
ghost use Rattle.snap_select.specs.Pieces.{past, front, is_decimal, goes_on_dot, Fails, IsNameThen, IsNumber, unsigned, IsNumberThen, number_value};

use snap_content::characters::{after_character, before_rest, begins_with, split_first};
use unicode_ident::{is_xid_continue, is_xid_start};

/// Whether the character is a blank or a tab.
fn is_blank(character: char) -> bool
    ensures { result ≡ is_blank character }
{
    character == ' ' || character == '\t'
}

/// What is left after blanks and tabs.
pub(crate) fn past_blanks(text: &str) -> &str
    ensures { chars result.now ≡ past is_blank (chars text.now) }
{
    let mut rest = text;
    while let Some((c, more)) = split_first(rest) {
        if !is_blank(c) {
            return rest;
        }
        rest = more;
    }
    rest
}

/// Whether a name may begin with the character.
fn begins_name(character: char) -> bool
    ensures { result ≡ begins_name character }
{
    character == '_' || character == '$' || is_xid_start(character)
}

/// Whether a name or a star is at the front.
pub(crate) fn goes_on_dot(text: &str) -> bool
    ensures { result ≡ goes_on_dot (chars text.now) }
{
    match split_first(text) {
        Some((c, _)) => begins_name(c) || c == '*',
        None => false,
    }
}

/// What is left after the characters that a name may go on with.
fn past_name(text: &str) -> &str
    ensures { chars result.now ≡ past is_xid_continue (chars text.now) }
{
    let mut rest = text;
    while let Some((c, more)) = split_first(rest) {
        if !is_xid_continue(c) {
            return rest;
        }
        rest = more;
    }
    rest
}

/// The name at the front, as long as it can be, and the rest.
pub(crate) fn split_name(text: &str) -> Option<(&str, &str)>
    ensures { MatchOption result (Fails begins_name (chars text.now))
        (λ p. IsNameThen (chars text.now) (chars p.0.now) (chars p.1.now)) }
{
    match split_first(text) {
        Some((c, more)) if begins_name(c) => {
            let rest = past_name(more);
            Some((before_rest(text, rest), rest))
        }
        _ => None,
    }
}

/// Whether the character is a decimal digit.
fn is_decimal(character: char) -> bool
    ensures { result ≡ is_decimal character }
{
    character.to_digit(10).is_some()
}

/// What is left after the digits.
fn past_digits(text: &str) -> &str
    ensures { chars result.now ≡ past is_decimal (chars text.now) }
{
    let mut rest = text;
    while let Some((c, more)) = split_first(rest) {
        if !is_decimal(c) {
            return rest;
        }
        rest = more;
    }
    rest
}

/// The text without a minus at its front.
pub(crate) fn unsigned(text: &str) -> &str
    ensures { chars result.now ≡ unsigned (chars text.now) }
{
    match after_character(text, '-') {
        Some(digits) => digits,
        None => text,
    }
}

/// The number at the front, a minus and digits or digits alone, as long as it can be, and the rest.
pub(crate) fn split_number(text: &str) -> Option<(&str, &str)>
    ensures { MatchOption result (Fails is_decimal (unsigned (chars text.now)))
        (λ p. IsNumberThen (chars text.now) (chars p.0.now) (chars p.1.now)) }
{
    match split_first(unsigned(text)) {
        Some((c, more)) if is_decimal(c) => {
            let rest = past_digits(more);
            Some((before_rest(text, rest), rest))
        }
        _ => None,
    }
}

/// The number, where it has no minus and is below 2^64.
pub(crate) fn index_of(number: &str) -> Option<u64>
    ensures number { IsNumeral 10 (chars number.now)
        → MatchOption result (2 ^ 64 ≤ digits_value 10 (chars number.now))
        (λ n. n ≡ digits_value 10 (chars number.now)) }
    ensures small { IfSome result (λ n. n < 2 ^ 64) }
{
    number.parse::<u64>().ok()
}

/// The number, from -2^63 up to 2^63 - 1.
pub(crate) fn bound_of(number: &str) -> Option<i64>
    ensures { IsNumber (chars number.now)
        → MatchOption result (¬ FitsBound (number_value (chars number.now)))
        (λ n. (n ≡ number_value (chars number.now)) × FitsBound n) }
{
    number.parse::<i64>().ok()
}
