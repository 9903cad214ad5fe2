//! What a scalar is typed as.
ghost use Rattle.std.specs.Prelude.{◌≡◌, IfOk};
ghost use Rattle.std.specs.Str.{chars};
ghost use Rattle.snap_print.specs.Typed.{is_null_word};
ghost use Rattle.snap_yaml.specs.View.{value_of};
ghost use Rattle.snap_yaml.specs.Kinds.{value_of_kind};
ghost use Rattle.snap_yaml.specs.Typing.{begins_value, typed_number, typed_word, typed_yaml, typed_bool, typed_int, typed_float, typed_null, typed_as, tagged};

use crate::numbers::{integer, is_real, prefixed_integer};
use crate::yaml::Yaml;
use snap_content::characters::{is_same, split_first};
use snap_content::{OutOfMemory, Text};
use std::alloc::Global;

/// What a scalar is, beside its text, which is copied last and once.
pub(crate) enum Kind {
    Real,
    Integer(i64),
    String,
    Boolean(bool),
    Null,
    BadValue,
}

/// Whether a text that begins so may be more than a text. Most texts begin with another character.
fn begins_as_value(text: &str) -> bool
    ensures { result ≡ begins_value (chars text.now) }
{
    match split_first(text) {
        None => false,
        Some((first, _)) => matches!(
            first,
            '0'..='9' | '+' | '-' | '.' | '~' | 'n' | 'N' | 't' | 'f' | 'i' | 'I'
        ),
    }
}

/// Whether the text is one of the two words for null.
fn is_null_text(text: &str) -> bool
    ensures { result ≡ is_null_word (chars text.now) }
{
    is_same(text, "~") || is_same(text, "null")
}

/// A number, or a text.
fn number_kind(text: &str) -> Kind
    ensures { value_of_kind result (chars text.now) ≡ typed_number (chars text.now) }
{
    match integer(text, 10) {
        Some(number) => Kind::Integer(number),
        None => {
            if is_real(text) {
                Kind::Real
            } else {
                Kind::String
            }
        }
    }
}

/// A word with a meaning, a number, or a text.
fn word_kind(text: &str) -> Kind
    ensures { value_of_kind result (chars text.now) ≡ typed_word (chars text.now) }
{
    if is_null_text(text) {
        return Kind::Null;
    }
    if is_same(text, "true") {
        return Kind::Boolean(true);
    }
    if is_same(text, "false") {
        return Kind::Boolean(false);
    }
    number_kind(text)
}

/// What a plain scalar is.
fn plain_kind(text: &str) -> Kind
    ensures { value_of_kind result (chars text.now) ≡ typed_yaml (chars text.now) }
{
    if !begins_as_value(text) {
        return Kind::String;
    }
    match prefixed_integer(text) {
        Some(number) => Kind::Integer(number),
        None => word_kind(text),
    }
}

fn bool_kind(text: &str) -> Kind
    ensures { value_of_kind result (chars text.now) ≡ typed_bool (chars text.now) }
{
    if is_same(text, "true") {
        return Kind::Boolean(true);
    }
    if is_same(text, "false") {
        Kind::Boolean(false)
    } else {
        Kind::BadValue
    }
}

fn int_kind(text: &str) -> Kind
    ensures { value_of_kind result (chars text.now) ≡ typed_int (chars text.now) }
{
    match integer(text, 10) {
        Some(number) => Kind::Integer(number),
        None => Kind::BadValue,
    }
}

fn float_kind(text: &str) -> Kind
    ensures { value_of_kind result (chars text.now) ≡ typed_float (chars text.now) }
{
    if is_real(text) {
        Kind::Real
    } else {
        Kind::BadValue
    }
}

fn null_kind(text: &str) -> Kind
    ensures { value_of_kind result (chars text.now) ≡ typed_null (chars text.now) }
{
    if is_null_text(text) {
        Kind::Null
    } else {
        Kind::BadValue
    }
}

/// What a plain scalar is after a tag with the handle `!!`.
fn suffix_kind(suffix: &str, text: &str) -> Kind
    ensures { value_of_kind result (chars text.now) ≡ typed_as (chars suffix.now) (chars text.now) }
{
    if is_same(suffix, "bool") {
        return bool_kind(text);
    }
    if is_same(suffix, "int") {
        return int_kind(text);
    }
    if is_same(suffix, "float") {
        return float_kind(text);
    }
    if is_same(suffix, "null") {
        return null_kind(text);
    }
    Kind::String
}

/// What a plain scalar is after a tag.
fn tagged_kind(handle: &str, suffix: &str, text: &str) -> Kind
    ensures { value_of_kind result (chars text.now)
        ≡ tagged (chars handle.now) (chars suffix.now) (chars text.now) }
{
    if is_same(handle, "!!") {
        suffix_kind(suffix, text)
    } else {
        Kind::String
    }
}

impl Kind {
    /// The value of this kind with the text, which is copied where it is kept.
    fn with_text(self, alloc: Global, text: &str) -> Result<Yaml, OutOfMemory>
        ensures { IfOk result (λ made. value_of made ≡ value_of_kind self (chars text.now)) }
    {
        match self {
            Kind::Real => Ok(Yaml::Real(Text::from_str(alloc, text)?)),
            Kind::Integer(number) => Ok(Yaml::Integer(number)),
            Kind::String => Ok(Yaml::String(Text::from_str(alloc, text)?)),
            Kind::Boolean(truth) => Ok(Yaml::Boolean(truth)),
            Kind::Null => Ok(Yaml::Null),
            Kind::BadValue => Ok(Yaml::BadValue),
        }
    }
}

impl Yaml {
    /// The value of a plain scalar: a whole number of 64 bits in one of its spellings, a null, a truth, another number,
    /// which is kept as its text, or else a text.
    pub fn from_str(alloc: Global, v: &str) -> Result<Yaml, OutOfMemory>
        ensures { IfOk result (λ made. value_of made ≡ typed_yaml (chars v.now)) }
    {
        plain_kind(v).with_text(alloc, v)
    }

    /// The value of a plain scalar after a tag. With the handle `!!` the suffixes `bool`, `int`, `float` and `null` ask
    /// for a value of that type, and a text that is none is a bad value. After any other tag the scalar is a text.
    pub fn tagged(alloc: Global, handle: &str, suffix: &str, v: &str) -> Result<Yaml, OutOfMemory>
        ensures { IfOk result (λ made. value_of made
            ≡ tagged (chars handle.now) (chars suffix.now) (chars v.now)) }
    {
        tagged_kind(handle, suffix, v).with_text(alloc, v)
    }
}
