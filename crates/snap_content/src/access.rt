//! Looking into a tree.
ghost use Rattle.std.specs.Prelude.{◌≡◌, option_map, option_copied};
ghost use Rattle.std.specs.Str.{chars};
ghost use Rattle.snap_content.specs.View.{tree, item_trees};
ghost use Rattle.snap_content.specs.Access.{resolved, wraps, rewrapped, text_in, bytes_in, bool_in, items_in, whole_number_in, is_nil_tree, fitting_u64, fitting_u128, fitting_i64, fitting_i128};

use crate::content::Content;

impl Content {
    ghost use Rattle.std.specs.Prelude.{true};
    ghost use Rattle.std.specs.Borrow.{Lends, sem};
    ghost use Rattle.std.specs.Box.{with_value};
    ghost use Rattle.snap_content.specs.contracts.content.Content.{the_row};
    ghost use Rattle.snap_content.specs.Lending.{LendsTree, box_row, with_wrapped};

    /// The tree inside wrappers: `Some`, newtype structs and newtype variants.
    pub fn resolve_inner(&self) -> &Content
        ensures { tree result.now ≡ resolved (tree self.now) }
    {
        match self {
            Content::Some(inner) => inner.resolve_inner(),
            Content::NewtypeStruct(_, inner) => inner.resolve_inner(),
            Content::NewtypeVariant(_, _, _, inner) => inner.resolve_inner(),
            _ => self,
        }
    }

    /// The tree inside wrappers, to be changed. What is written there stands inside the same wrappers.
    pub fn resolve_inner_mut(&mut self) -> &mut Content
        ensures* writes_back { sem 𝓛 (LendsTree self.entry result (rewrapped (tree self.old))) }
        ensures value { tree result.now ≡ resolved (tree self.old) }
    {
        let mut inner = self;
        while inner.is_wrapper() {
            inner = Content::unboxed_mut(inner.wrapped_mut());
        }
        inner
    }

    /// Whether the tree is a wrapper: `Some`, a newtype struct or a newtype variant.
    fn is_wrapper(&self) -> bool
        ensures { result ≡ wraps (tree self.now) }
    {
        matches!(
            self,
            Content::Some(_) | Content::NewtypeStruct(..) | Content::NewtypeVariant(..)
        )
    }

    /// What a wrapper holds, to be changed.
    fn wrapped_mut(&mut self) -> &mut Box<Content>
        requires { wraps (tree self.old) ≡ true }
        ensures* writes_back { sem 𝓛 (Lends the_row box_row self.entry result
            (with_wrapped self.old)) }
        ensures value { with_wrapped self.old result.now ≡ self.old }
    {
        match self {
            Content::Some(inner) => inner,
            Content::NewtypeStruct(_, inner) => inner,
            Content::NewtypeVariant(_, _, _, inner) => inner,
            _ => unreachable!(),
        }
    }

    /// What a box holds, to be changed: `Box::as_mut` without its type parameters, for the proof of the loop.
    fn unboxed_mut(boxed: &mut Box<Content>) -> &mut Content
        ensures* writes_back { sem 𝓛 (Lends box_row the_row boxed.entry result
            (with_value boxed.old)) }
        ensures value { result.now ≡ boxed.old.value }
    {
        boxed
    }

    /// The text of a `String`, inside wrappers.
    pub fn as_str(&self) -> Option<&str>
        ensures { option_map (λ text. chars text.now) result ≡ text_in (resolved (tree self.now)) }
    {
        match self.resolve_inner() {
            Content::String(text) => Some(text.as_str()),
            _ => None,
        }
    }

    /// The bytes of a `Bytes`, inside wrappers.
    pub fn as_bytes(&self) -> Option<&[u8]>
        ensures { option_copied result ≡ bytes_in (resolved (tree self.now)) }
    {
        match self.resolve_inner() {
            Content::Bytes(blob) => Some(blob.as_slice()),
            _ => None,
        }
    }

    /// The value of a `Bool`, inside wrappers.
    pub fn as_bool(&self) -> Option<bool>
        ensures { result ≡ bool_in (resolved (tree self.now)) }
    {
        match self.resolve_inner() {
            Content::Bool(value) => Some(*value),
            _ => None,
        }
    }

    /// The items of a `Seq`, `Tuple` or `TupleVariant`, inside wrappers. A `TupleStruct` has none.
    pub fn as_slice(&self) -> Option<&[Content]>
        ensures { option_map (λ items. item_trees items.now) result
            ≡ items_in (resolved (tree self.now)) }
    {
        match self.resolve_inner() {
            Content::Seq(items) => Some(items.as_slice()),
            Content::Tuple(items) => Some(items.as_slice()),
            Content::TupleVariant(_, _, _, items) => Some(items.as_slice()),
            _ => None,
        }
    }

    /// Whether the tree is `None` or `Unit`, inside wrappers.
    pub fn is_nil(&self) -> bool
        ensures { result ≡ is_nil_tree (resolved (tree self.now)) }
    {
        matches!(self.resolve_inner(), Content::None | Content::Unit)
    }

    /// The whole number, inside wrappers, where it fits.
    pub fn as_u64(&self) -> Option<u64>
        ensures { result ≡ fitting_u64 (whole_number_in (resolved (tree self.now))) }
    {
        match self.resolve_inner() {
            Content::U8(value) => Some(u64::from(*value)),
            Content::U16(value) => Some(u64::from(*value)),
            Content::U32(value) => Some(u64::from(*value)),
            Content::U64(value) => Some(*value),
            Content::U128(value) => u64::try_from(*value).ok(),
            Content::I8(value) => u64::try_from(*value).ok(),
            Content::I16(value) => u64::try_from(*value).ok(),
            Content::I32(value) => u64::try_from(*value).ok(),
            Content::I64(value) => u64::try_from(*value).ok(),
            Content::I128(value) => u64::try_from(*value).ok(),
            _ => None,
        }
    }
    /// The whole number, inside wrappers, where it fits.
    pub fn as_u128(&self) -> Option<u128>
        ensures { result ≡ fitting_u128 (whole_number_in (resolved (tree self.now))) }
    {
        match self.resolve_inner() {
            Content::U8(value) => Some(u128::from(*value)),
            Content::U16(value) => Some(u128::from(*value)),
            Content::U32(value) => Some(u128::from(*value)),
            Content::U64(value) => Some(u128::from(*value)),
            Content::U128(value) => Some(*value),
            Content::I8(value) => u128::try_from(*value).ok(),
            Content::I16(value) => u128::try_from(*value).ok(),
            Content::I32(value) => u128::try_from(*value).ok(),
            Content::I64(value) => u128::try_from(*value).ok(),
            Content::I128(value) => u128::try_from(*value).ok(),
            _ => None,
        }
    }

    /// The whole number, inside wrappers, where it fits.
    pub fn as_i64(&self) -> Option<i64>
        ensures { result ≡ fitting_i64 (whole_number_in (resolved (tree self.now))) }
    {
        match self.resolve_inner() {
            Content::U8(value) => Some(i64::from(*value)),
            Content::U16(value) => Some(i64::from(*value)),
            Content::U32(value) => Some(i64::from(*value)),
            Content::U64(value) => i64::try_from(*value).ok(),
            Content::U128(value) => i64::try_from(*value).ok(),
            Content::I8(value) => Some(i64::from(*value)),
            Content::I16(value) => Some(i64::from(*value)),
            Content::I32(value) => Some(i64::from(*value)),
            Content::I64(value) => Some(*value),
            Content::I128(value) => i64::try_from(*value).ok(),
            _ => None,
        }
    }

    /// The whole number, inside wrappers, where it fits.
    pub fn as_i128(&self) -> Option<i128>
        ensures { result ≡ fitting_i128 (whole_number_in (resolved (tree self.now))) }
    {
        match self.resolve_inner() {
            Content::U8(value) => Some(i128::from(*value)),
            Content::U16(value) => Some(i128::from(*value)),
            Content::U32(value) => Some(i128::from(*value)),
            Content::U64(value) => Some(i128::from(*value)),
            Content::U128(value) => i128::try_from(*value).ok(),
            Content::I8(value) => Some(i128::from(*value)),
            Content::I16(value) => Some(i128::from(*value)),
            Content::I32(value) => Some(i128::from(*value)),
            Content::I64(value) => Some(i128::from(*value)),
            Content::I128(value) => Some(*value),
            _ => None,
        }
    }
}
