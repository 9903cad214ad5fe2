//! What stands in a value after a key or at an index.
ghost use Rattle.std.specs.Prelude.{◌≡◌, option_map};
ghost use Rattle.std.specs.Str.{chars};
ghost use Rattle.snap_yaml.specs.View.{value_of, hash_list, hash_values};
ghost use Rattle.snap_yaml.specs.Lookup.{first_value, value_at_text, value_at_index};
ghost use Rattle.snap_yaml.specs.Keys.{is_key};

use crate::lists::Hash;
use crate::yaml::Yaml;

/// What is looked for in a hash.
#[derive(Clone, Copy)]
pub(crate) enum Key<'a> {
    Text(&'a str),
    Number(usize),
}

impl Key<'_> {
    /// Whether the value is this key.
    fn is(self, value: &Yaml) -> bool
        ensures { result ≡ is_key self.entry (value_of value.now) }
    {
        match self {
            Key::Text(text) => value.is_text(text),
            Key::Number(number) => value.is_number(number),
        }
    }
}

impl Yaml {
    ghost use Rattle.snap_yaml.specs.Lookup.{is_text, is_number};

    /// Whether the value is this text.
    fn is_text(&self, text: &str) -> bool
        ensures { result ≡ is_text (chars text.now) (value_of self.now) }
    {
        match self {
            Yaml::String(own) => own.as_str() == text,
            _ => false,
        }
    }

    /// Whether the value is this whole number.
    fn is_number(&self, number: usize) -> bool
        ensures { result ≡ is_number number (value_of self.now) }
    {
        match self {
            Yaml::Integer(own) => usize::try_from(*own) == Ok(number),
            _ => false,
        }
    }

    /// The value of the first pair of a hash with this text as its key.
    pub fn get(&self, key: &str) -> Option<&Yaml>
        ensures { option_map (λ found. value_of found.now) result
            ≡ value_at_text (chars key.now) (value_of self.now) }
    {
        match self {
            Yaml::Hash(pairs) => first_value_of(pairs, Key::Text(key)),
            _ => None,
        }
    }

    /// The item of an array at the index, or the value of the first pair of a hash with that number as its key.
    pub fn get_at(&self, index: usize) -> Option<&Yaml>
        ensures { option_map (λ found. value_of found.now) result
            ≡ value_at_index index (value_of self.now) }
    {
        match self {
            Yaml::Array(items) => items.get(index),
            Yaml::Hash(pairs) => first_value_of(pairs, Key::Number(index)),
            _ => None,
        }
    }
}

/// The value of the first pair with this key.
fn first_value_of<'a>(hash: &'a Hash, sought: Key<'_>) -> Option<&'a Yaml>
    ensures { option_map (λ found. value_of found.now) result
        ≡ first_value (is_key sought.entry) (hash_values (hash_list hash.now)) }
{
    for (key, found) in hash.as_slice() {
        if sought.is(key) {
            return Some(found);
        }
    }
    None
}
