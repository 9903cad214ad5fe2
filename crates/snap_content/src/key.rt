//! What a tree is as a key of a map.
ghost use Rattle.std.specs.Prelude.{◌≡◌};
ghost use Rattle.snap_content.specs.View.{tree};
ghost use Rattle.snap_content.specs.Keys.{rank, key_of, is_other, value_cmp, key_cmp, key_value};

use crate::characters::compare;
use crate::content::Content;
use std::cmp::Ordering;

/// A key of a map, by its kind. The kinds stand in the order of their ranks.
#[derive(Clone, Copy, Debug)]
pub enum Key<'a> {
    Bool(bool),
    U64(u64),
    I64(i64),
    U128(u128),
    I128(i128),
    Str(&'a str),
    Bytes(&'a [u8]),
    Other,
}

impl Content {
    /// The key inside wrappers. A character counts as its number.
    pub fn as_key(&self) -> Key<'_>
        ensures { key_value result ≡ key_of (tree self.now) }
    {
        match self.resolve_inner() {
            Content::Bool(value) => Key::Bool(*value),
            Content::U8(value) => Key::U64(u64::from(*value)),
            Content::U16(value) => Key::U64(u64::from(*value)),
            Content::U32(value) => Key::U64(u64::from(*value)),
            Content::U64(value) => Key::U64(*value),
            Content::Char(value) => Key::U64(u64::from(*value)),
            Content::I8(value) => Key::I64(i64::from(*value)),
            Content::I16(value) => Key::I64(i64::from(*value)),
            Content::I32(value) => Key::I64(i64::from(*value)),
            Content::I64(value) => Key::I64(*value),
            Content::U128(value) => Key::U128(*value),
            Content::I128(value) => Key::I128(*value),
            Content::String(text) => Key::Str(text.as_str()),
            Content::Bytes(blob) => Key::Bytes(blob.as_slice()),
            _ => Key::Other,
        }
    }

    /// The order of two keys of a map: by rank, then by value. Two keys of the last rank have no value,
    /// and compare as trees, as they stand.
    pub(crate) fn compare_as_keys(&self, other: &Content) -> Ordering
        ensures { result ≡ key_cmp (tree self.now) (tree other.now) }
    {
        let (left, right) = (self.as_key(), other.as_key());
        if left.is_other() && right.is_other() {
            self.compare(other)
        } else {
            left.compare(&right)
        }
    }
}

impl Key<'_> {
    /// Where the kind stands among the eight.
    fn rank(&self) -> u8
        ensures { result ≡ rank (key_value self.now) }
    {
        match self {
            Key::Bool(_) => 0,
            Key::U64(_) => 1,
            Key::I64(_) => 2,
            Key::U128(_) => 3,
            Key::I128(_) => 4,
            Key::Str(_) => 5,
            Key::Bytes(_) => 6,
            Key::Other => 7,
        }
    }

    fn is_other(&self) -> bool
        ensures { result ≡ is_other (key_value self.now) }
    {
        matches!(self, Key::Other)
    }

    /// By rank, then by value. Two of the last rank are equal.
    fn compare(&self, other: &Key<'_>) -> Ordering
        ensures { result ≡ value_cmp (key_value self.now) (key_value other.now) }
    {
        match (self, other) {
            (Key::Bool(left), Key::Bool(right)) => left.cmp(right),
            (Key::U64(left), Key::U64(right)) => left.cmp(right),
            (Key::I64(left), Key::I64(right)) => left.cmp(right),
            (Key::U128(left), Key::U128(right)) => left.cmp(right),
            (Key::I128(left), Key::I128(right)) => left.cmp(right),
            (Key::Str(left), Key::Str(right)) => compare(left, right),
            (Key::Bytes(left), Key::Bytes(right)) => left.cmp(right),
            _ => self.rank().cmp(&other.rank()),
        }
    }
}

impl PartialEq for Key<'_> {
    ghost use Rattle.std.specs.Ordering.{eq_by_cmp};
    ghost use Rattle.std.specs.Cmp.{partial_equiv_from_equiv};
    ghost use Rattle.std.proofs.lemmas.Cmp.{eq_by_cmp_equiv};
    ghost use Rattle.snap_content.specs.KeyLaws.{shown_cmp, shown_total};

    ghost eq = { eq_by_cmp shown_cmp };

    ghost laws = { partial_equiv_from_equiv (eq_by_cmp_equiv shown_total) };

    fn eq(&self, other: &Key<'_>) -> bool {
        self.compare(other).is_eq()
    }
}

impl Eq for Key<'_> {
    ghost use Rattle.std.proofs.lemmas.Cmp.{eq_by_cmp_equiv};
    ghost use Rattle.snap_content.specs.KeyLaws.{shown_total};

    ghost laws = { eq_by_cmp_equiv shown_total };
}

impl PartialOrd for Key<'_> {
    ghost use Rattle.std.specs.Ordering.{as_partial_cmp};
    ghost use Rattle.std.specs.Cmp.{partial_order_from_total};
    ghost use Rattle.snap_content.specs.KeyLaws.{shown_cmp, shown_total};

    ghost partial_cmp = { as_partial_cmp shown_cmp };

    ghost laws = { partial_order_from_total shown_total };

    fn partial_cmp(&self, other: &Key<'_>) -> Option<Ordering> {
        Some(self.compare(other))
    }
}

impl Ord for Key<'_> {
    ghost use Rattle.std.proofs.Common.{refl};
    ghost use Rattle.snap_content.specs.KeyLaws.{shown_cmp, shown_total};

    ghost cmp = { shown_cmp };

    ghost total = { shown_total };

    ghost matches_partial_cmp = { λ x y. refl };

    ghost matches_eq = { λ x y. refl };

    fn cmp(&self, other: &Key<'_>) -> Ordering {
        self.compare(other)
    }
}
