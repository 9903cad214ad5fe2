//! The order of trees.
ghost use Rattle.std.specs.Prelude.{◌≡◌};
ghost use Rattle.snap_content.specs.View.{tree, item_list, item_trees, pair_list, pair_trees, field_list, field_trees};
ghost use Rattle.snap_content.specs.Orders.{place, tree_cmp, trees_cmp, pairs_cmp, fields_cmp};

use crate::content::Content;
use crate::lists::{Fields, Items, Pairs};
use std::cmp::Ordering;

/// The first of these orders that is not `Equal`. What stands after it is not computed.
macro_rules! in_turn {
    ($last:expr) => { $last };
    ($first:expr, $($next:expr),+) => {
        match $first {
            Ordering::Equal => in_turn!($($next),+),
            unequal => unequal,
        }
    };
}

/// The order of the fields in turn where the other tree is of the same variant, else that of the places.
macro_rules! same_variant {
    ($other:expr, $by_place:expr, $pattern:pat => $($order:expr),+) => {
        match $other {
            $pattern => in_turn!($($order),+),
            _ => $by_place,
        }
    };
}

impl Content {
    /// Where the variant stands among the 28.
    fn place(&self) -> u8
        ensures { result ≡ place (tree self.now) }
    {
        match self {
            Content::Bool(_) => 0,
            Content::U8(_) => 1,
            Content::U16(_) => 2,
            Content::U32(_) => 3,
            Content::U64(_) => 4,
            Content::U128(_) => 5,
            Content::I8(_) => 6,
            Content::I16(_) => 7,
            Content::I32(_) => 8,
            Content::I64(_) => 9,
            Content::I128(_) => 10,
            Content::Char(_) => 11,
            Content::String(_) => 12,
            Content::Bytes(_) => 13,
            Content::None => 14,
            Content::Some(_) => 15,
            Content::Unit => 16,
            Content::UnitStruct(_) => 17,
            Content::UnitVariant(_, _, _) => 18,
            Content::NewtypeStruct(_, _) => 19,
            Content::NewtypeVariant(_, _, _, _) => 20,
            Content::Seq(_) => 21,
            Content::Tuple(_) => 22,
            Content::TupleStruct(_, _) => 23,
            Content::TupleVariant(_, _, _, _) => 24,
            Content::Map(_) => 25,
            Content::Struct(_, _) => 26,
            Content::StructVariant(_, _, _, _) => 27,
        }
    }

    /// The order of two trees: by the places of their variants, then by their fields from left to right.
    #[cycle(order)]
    pub fn compare(&self, other: &Content) -> Ordering
        ensures { result ≡ tree_cmp (tree self.now) (tree other.now) }
    {
        let by_place = self.place().cmp(&other.place());
        match self {
            Content::Bool(left) =>
                same_variant!(other, by_place, Content::Bool(right) => left.cmp(right)),
            Content::U8(left) =>
                same_variant!(other, by_place, Content::U8(right) => left.cmp(right)),
            Content::U16(left) =>
                same_variant!(other, by_place, Content::U16(right) => left.cmp(right)),
            Content::U32(left) =>
                same_variant!(other, by_place, Content::U32(right) => left.cmp(right)),
            Content::U64(left) =>
                same_variant!(other, by_place, Content::U64(right) => left.cmp(right)),
            Content::U128(left) =>
                same_variant!(other, by_place, Content::U128(right) => left.cmp(right)),
            Content::I8(left) =>
                same_variant!(other, by_place, Content::I8(right) => left.cmp(right)),
            Content::I16(left) =>
                same_variant!(other, by_place, Content::I16(right) => left.cmp(right)),
            Content::I32(left) =>
                same_variant!(other, by_place, Content::I32(right) => left.cmp(right)),
            Content::I64(left) =>
                same_variant!(other, by_place, Content::I64(right) => left.cmp(right)),
            Content::I128(left) =>
                same_variant!(other, by_place, Content::I128(right) => left.cmp(right)),
            Content::Char(left) =>
                same_variant!(other, by_place, Content::Char(right) => left.cmp(right)),
            Content::String(left) =>
                same_variant!(other, by_place, Content::String(right) => left.cmp(right)),
            Content::Bytes(left) =>
                same_variant!(other, by_place, Content::Bytes(right) => left.cmp(right)),
            Content::None => same_variant!(other, by_place, Content::None => Ordering::Equal),
            Content::Some(left) =>
                same_variant!(other, by_place, Content::Some(right) => left.compare(right)),
            Content::Unit => same_variant!(other, by_place, Content::Unit => Ordering::Equal),
            Content::UnitStruct(left) =>
                same_variant!(other, by_place, Content::UnitStruct(right) => left.cmp(right)),
            Content::UnitVariant(name, index, variant) => same_variant!(
                other, by_place,
                Content::UnitVariant(other_name, other_index, other_variant) =>
                    name.cmp(other_name), index.cmp(other_index), variant.cmp(other_variant)
            ),
            Content::NewtypeStruct(name, left) => same_variant!(
                other, by_place,
                Content::NewtypeStruct(other_name, right) =>
                    name.cmp(other_name), left.compare(right)
            ),
            Content::NewtypeVariant(name, index, variant, left) => same_variant!(
                other, by_place,
                Content::NewtypeVariant(other_name, other_index, other_variant, right) =>
                    name.cmp(other_name), index.cmp(other_index), variant.cmp(other_variant), left.compare(right)
            ),
            Content::Seq(left) =>
                same_variant!(other, by_place, Content::Seq(right) => left.compare(right)),
            Content::Tuple(left) =>
                same_variant!(other, by_place, Content::Tuple(right) => left.compare(right)),
            Content::TupleStruct(name, left) => same_variant!(
                other, by_place,
                Content::TupleStruct(other_name, right) =>
                    name.cmp(other_name), left.compare(right)
            ),
            Content::TupleVariant(name, index, variant, left) => same_variant!(
                other, by_place,
                Content::TupleVariant(other_name, other_index, other_variant, right) =>
                    name.cmp(other_name), index.cmp(other_index), variant.cmp(other_variant), left.compare(right)
            ),
            Content::Map(left) =>
                same_variant!(other, by_place, Content::Map(right) => left.compare(right)),
            Content::Struct(name, left) => same_variant!(
                other, by_place,
                Content::Struct(other_name, right) =>
                    name.cmp(other_name), left.compare(right)
            ),
            Content::StructVariant(name, index, variant, left) => same_variant!(
                other, by_place,
                Content::StructVariant(other_name, other_index, other_variant, right) =>
                    name.cmp(other_name), index.cmp(other_index), variant.cmp(other_variant), left.compare(right)
            ),
        }
    }
}

impl Items {
    /// Item by item, a list before one that begins with it.
    #[cycle(order)]
    pub fn compare(&self, other: &Items) -> Ordering
        ensures { result ≡ trees_cmp (item_trees (item_list self.now))
            (item_trees (item_list other.now)) }
    {
        let mut rest = other.as_slice();
        for item in self.as_slice() {
            match rest {
                [] => return Ordering::Greater,
                [first, later @ ..] => match item.compare(first) {
                    Ordering::Equal => rest = later,
                    unequal => return unequal,
                },
            }
        }
        if rest.is_empty() {
            Ordering::Equal
        } else {
            Ordering::Less
        }
    }
}

impl Pairs {
    /// Pair by pair, the key first, a list before one that begins with it.
    #[cycle(order)]
    pub fn compare(&self, other: &Pairs) -> Ordering
        ensures { result ≡ pairs_cmp (pair_trees (pair_list self.now))
            (pair_trees (pair_list other.now)) }
    {
        let mut rest = other.as_slice();
        for (key, value) in self.as_slice() {
            match rest {
                [] => return Ordering::Greater,
                [first, later @ ..] => match in_turn!(
                    key.compare(&first.0),
                    value.compare(&first.1)
                ) {
                    Ordering::Equal => rest = later,
                    unequal => return unequal,
                },
            }
        }
        if rest.is_empty() {
            Ordering::Equal
        } else {
            Ordering::Less
        }
    }
}

impl Fields {
    /// Field by field, the name first, a list before one that begins with it.
    #[cycle(order)]
    pub fn compare(&self, other: &Fields) -> Ordering
        ensures { result ≡ fields_cmp (field_trees (field_list self.now))
            (field_trees (field_list other.now)) }
    {
        let mut rest = other.as_slice();
        for (name, value) in self.as_slice() {
            match rest {
                [] => return Ordering::Greater,
                [first, later @ ..] => match in_turn!(name.cmp(&first.0), value.compare(&first.1)) {
                    Ordering::Equal => rest = later,
                    unequal => return unequal,
                },
            }
        }
        if rest.is_empty() {
            Ordering::Equal
        } else {
            Ordering::Less
        }
    }
}
