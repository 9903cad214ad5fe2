//! What a value holds, where it is of the variant that is asked for.
ghost use Rattle.std.specs.Prelude.{◌≡◌, option_map};
ghost use Rattle.std.specs.Str.{chars};
ghost use Rattle.snap_yaml.specs.View.{value_of, array_list, array_values, hash_list, hash_values};
ghost use Rattle.snap_yaml.specs.Readers.{boolean_in, integer_in, string_in, array_in, hash_in, is_null_value, is_bad, is_array_value};

use crate::lists::{Array, Hash};
use crate::yaml::Yaml;
use snap_content::Text;

impl Yaml {
    pub fn as_bool(&self) -> Option<bool>
        ensures { result ≡ boolean_in (value_of self.now) }
    {
        match self {
            Yaml::Boolean(truth) => Some(*truth),
            _ => None,
        }
    }

    pub fn as_i64(&self) -> Option<i64>
        ensures { result ≡ integer_in (value_of self.now) }
    {
        match self {
            Yaml::Integer(number) => Some(*number),
            _ => None,
        }
    }

    pub fn as_str(&self) -> Option<&str>
        ensures { option_map (λ text. chars text.now) result ≡ string_in (value_of self.now) }
    {
        match self {
            Yaml::String(text) => Some(text.as_str()),
            _ => None,
        }
    }

    pub fn as_hash(&self) -> Option<&Hash>
        ensures { option_map (λ pairs. hash_values (hash_list pairs.now)) result
            ≡ hash_in (value_of self.now) }
    {
        match self {
            Yaml::Hash(pairs) => Some(pairs),
            _ => None,
        }
    }

    pub fn as_vec(&self) -> Option<&Array>
        ensures { option_map (λ items. array_values (array_list items.now)) result
            ≡ array_in (value_of self.now) }
    {
        match self {
            Yaml::Array(items) => Some(items),
            _ => None,
        }
    }

    pub fn into_bool(self) -> Option<bool>
        ensures { result ≡ boolean_in (value_of self) }
    {
        match self {
            Yaml::Boolean(truth) => Some(truth),
            _ => None,
        }
    }

    pub fn into_i64(self) -> Option<i64>
        ensures { result ≡ integer_in (value_of self) }
    {
        match self {
            Yaml::Integer(number) => Some(number),
            _ => None,
        }
    }

    pub fn into_string(self) -> Option<Text>
        ensures { result ≡ string_in (value_of self) }
    {
        match self {
            Yaml::String(text) => Some(text),
            _ => None,
        }
    }

    pub fn into_hash(self) -> Option<Hash>
        ensures { option_map (λ pairs. hash_values (hash_list pairs)) result
            ≡ hash_in (value_of self) }
    {
        match self {
            Yaml::Hash(pairs) => Some(pairs),
            _ => None,
        }
    }

    pub fn into_vec(self) -> Option<Array>
        ensures { option_map (λ items. array_values (array_list items)) result
            ≡ array_in (value_of self) }
    {
        match self {
            Yaml::Array(items) => Some(items),
            _ => None,
        }
    }

    pub fn is_null(&self) -> bool
        ensures { result ≡ is_null_value (value_of self.now) }
    {
        matches!(self, Yaml::Null)
    }

    pub fn is_badvalue(&self) -> bool
        ensures { result ≡ is_bad (value_of self.now) }
    {
        matches!(self, Yaml::BadValue)
    }

    pub fn is_array(&self) -> bool
        ensures { result ≡ is_array_value (value_of self.now) }
    {
        matches!(self, Yaml::Array(_))
    }
}
