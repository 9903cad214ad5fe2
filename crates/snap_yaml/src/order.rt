//! The order of values.
ghost use Rattle.std.specs.Prelude.{◌≡◌};
ghost use Rattle.snap_yaml.specs.View.{value_of, array_list, array_values, hash_list, hash_values};
ghost use Rattle.snap_yaml.specs.Orders.{place, value_cmp, values_cmp, pairs_cmp};

use crate::lists::{Array, Hash};
use crate::yaml::Yaml;
use std::cmp::Ordering;

/// The first of these orders that is not `Equal`. What stands after it is not computed.
macro_rules! in_turn {
    ($first:expr, $last:expr) => {
        match $first {
            Ordering::Equal => $last,
            unequal => unequal,
        }
    };
}

/// The order of the fields where the other value is of the same variant, else that of the places.
macro_rules! same_variant {
    ($other:expr, $by_place:expr, $pattern:pat => $order:expr) => {
        match $other {
            $pattern => $order,
            _ => $by_place,
        }
    };
}

impl Yaml {
    /// Where the variant stands among the eight.
    fn place(&self) -> u8
        ensures { result ≡ place (value_of self.now) }
    {
        match self {
            Yaml::Real(_) => 0,
            Yaml::Integer(_) => 1,
            Yaml::String(_) => 2,
            Yaml::Boolean(_) => 3,
            Yaml::Array(_) => 4,
            Yaml::Hash(_) => 5,
            Yaml::Null => 6,
            Yaml::BadValue => 7,
        }
    }

    /// The order of two values: by the places of their variants, then by their fields.
    #[cycle(order)]
    pub fn compare(&self, other: &Yaml) -> Ordering
        ensures { result ≡ value_cmp (value_of self.now) (value_of other.now) }
    {
        let by_place = self.place().cmp(&other.place());
        match self {
            Yaml::Real(left) =>
                same_variant!(other, by_place, Yaml::Real(right) => left.cmp(right)),
            Yaml::Integer(left) =>
                same_variant!(other, by_place, Yaml::Integer(right) => left.cmp(right)),
            Yaml::String(left) =>
                same_variant!(other, by_place, Yaml::String(right) => left.cmp(right)),
            Yaml::Boolean(left) =>
                same_variant!(other, by_place, Yaml::Boolean(right) => left.cmp(right)),
            Yaml::Array(left) =>
                same_variant!(other, by_place, Yaml::Array(right) => compare_arrays(left, right)),
            Yaml::Hash(left) =>
                same_variant!(other, by_place, Yaml::Hash(right) => compare_hashes(left, right)),
            Yaml::Null => same_variant!(other, by_place, Yaml::Null => Ordering::Equal),
            Yaml::BadValue => same_variant!(other, by_place, Yaml::BadValue => Ordering::Equal),
        }
    }
}

/// Item by item, a list before one that begins with it.
#[cycle(order)]
fn compare_arrays(array: &Array, other: &Array) -> Ordering
    ensures { result ≡ values_cmp (array_values (array_list array.now))
        (array_values (array_list other.now)) }
{
    let mut rest = other.as_slice();
    for item in array.as_slice() {
        match rest {
            [] => return Ordering::Greater,
            [first, later @ ..] => match item.compare(first) {
                Ordering::Equal => rest = later,
                unequal => return unequal,
            },
        }
    }
    if rest.is_empty() {
        Ordering::Equal
    } else {
        Ordering::Less
    }
}

/// Pair by pair, the key first, a list before one that begins with it.
#[cycle(order)]
fn compare_hashes(hash: &Hash, other: &Hash) -> Ordering
    ensures { result ≡ pairs_cmp (hash_values (hash_list hash.now))
        (hash_values (hash_list other.now)) }
{
    let mut rest = other.as_slice();
    for (key, found) in hash.as_slice() {
        match rest {
            [] => return Ordering::Greater,
            [first, later @ ..] => match in_turn!(key.compare(&first.0), found.compare(&first.1)) {
                Ordering::Equal => rest = later,
                unequal => return unequal,
            },
        }
    }
    if rest.is_empty() {
        Ordering::Equal
    } else {
        Ordering::Less
    }
}
