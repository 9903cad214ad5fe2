//! Values that stand for trees: std's plain forms, and trees themselves.
ghost use Rattle.std.specs.Prelude.{◌≡◌, ◌++◌, IfOk, map, OnOk};
ghost use Rattle.std.specs.Str.{chars};
ghost use Rattle.snap_content.specs.View.{tree, item_list};
ghost use Rattle.snap_content.specs.Tree as t;
ghost use Rattle.snap_content.specs.Meanings.{option_tree, list_tree};

use crate::content::Content;
use crate::lists::Items;
use crate::memory::OutOfMemory;
use crate::text::Text;
use std::alloc::Global;

/// A value that a tree can be made of.
///
/// A type of one's own says in `meaning` which tree its values stand for, and `to_content` makes that tree.
pub trait ToContent {
    ghost use Rattle.snap_content.specs.Tree.{Tree};

    /// The tree that the value means.
    ghost meaning: { Self → Tree };

    fn to_content(&self, alloc: Global) -> Result<Content, OutOfMemory>
        ensures { IfOk result (λ made. tree made ≡ meaning self.now) };
}

impl ToContent for Content {
    ghost meaning = { tree };

    fn to_content(&self, alloc: Global) -> Result<Content, OutOfMemory> {
        self.try_clone(alloc)
    }
}

/// Nothing but itself: the unit.
impl ToContent for () {
    ghost meaning = { λ _. t.unit };

    fn to_content(&self, _alloc: Global) -> Result<Content, OutOfMemory> {
        Ok(Content::Unit)
    }
}

impl ToContent for bool {
    ghost meaning = { λ value. t.bool value };

    fn to_content(&self, _alloc: Global) -> Result<Content, OutOfMemory> {
        Ok(Content::Bool(*self))
    }
}

impl ToContent for u8 {
    ghost meaning = { λ value. t.u8 value };

    fn to_content(&self, _alloc: Global) -> Result<Content, OutOfMemory> {
        Ok(Content::U8(*self))
    }
}

impl ToContent for u16 {
    ghost meaning = { λ value. t.u16 value };

    fn to_content(&self, _alloc: Global) -> Result<Content, OutOfMemory> {
        Ok(Content::U16(*self))
    }
}

impl ToContent for u32 {
    ghost meaning = { λ value. t.u32 value };

    fn to_content(&self, _alloc: Global) -> Result<Content, OutOfMemory> {
        Ok(Content::U32(*self))
    }
}

impl ToContent for u64 {
    ghost meaning = { λ value. t.u64 value };

    fn to_content(&self, _alloc: Global) -> Result<Content, OutOfMemory> {
        Ok(Content::U64(*self))
    }
}

impl ToContent for u128 {
    ghost meaning = { λ value. t.u128 value };

    fn to_content(&self, _alloc: Global) -> Result<Content, OutOfMemory> {
        Ok(Content::U128(*self))
    }
}

impl ToContent for i8 {
    ghost meaning = { λ value. t.i8 value };

    fn to_content(&self, _alloc: Global) -> Result<Content, OutOfMemory> {
        Ok(Content::I8(*self))
    }
}

impl ToContent for i16 {
    ghost meaning = { λ value. t.i16 value };

    fn to_content(&self, _alloc: Global) -> Result<Content, OutOfMemory> {
        Ok(Content::I16(*self))
    }
}

impl ToContent for i32 {
    ghost meaning = { λ value. t.i32 value };

    fn to_content(&self, _alloc: Global) -> Result<Content, OutOfMemory> {
        Ok(Content::I32(*self))
    }
}

impl ToContent for i64 {
    ghost meaning = { λ value. t.i64 value };

    fn to_content(&self, _alloc: Global) -> Result<Content, OutOfMemory> {
        Ok(Content::I64(*self))
    }
}

impl ToContent for i128 {
    ghost meaning = { λ value. t.i128 value };

    fn to_content(&self, _alloc: Global) -> Result<Content, OutOfMemory> {
        Ok(Content::I128(*self))
    }
}

impl ToContent for char {
    ghost meaning = { λ value. t.char value };

    fn to_content(&self, _alloc: Global) -> Result<Content, OutOfMemory> {
        Ok(Content::Char(*self))
    }
}

/// A number of the machine's width is one of 64 bits.
impl ToContent for usize {
    ghost meaning = { λ value. t.u64 value };

    fn to_content(&self, _alloc: Global) -> Result<Content, OutOfMemory> {
        Ok(Content::U64(*self as u64))
    }
}

/// A number of the machine's width is one of 64 bits.
impl ToContent for isize {
    ghost meaning = { λ value. t.i64 value };

    fn to_content(&self, _alloc: Global) -> Result<Content, OutOfMemory> {
        Ok(Content::I64(*self as i64))
    }
}

impl ToContent for &str {
    ghost meaning = { λ value. t.string (chars value.now) };

    fn to_content(&self, alloc: Global) -> Result<Content, OutOfMemory> {
        Content::from_str(alloc, *self)
    }
}

impl ToContent for Text {
    ghost meaning = { λ value. t.string value };

    fn to_content(&self, alloc: Global) -> Result<Content, OutOfMemory> {
        Ok(Content::String(self.try_clone(alloc)?))
    }
}

impl<T: ToContent> ToContent for Option<T> {
    ghost meaning = { option_tree T.meaning };

    fn to_content(&self, alloc: Global) -> Result<Content, OutOfMemory> {
        match self {
            None => Ok(Content::None),
            Some(value) => {
                let inner = value.to_content(alloc)?;
                Ok(Content::Some(Box::new(alloc, inner)?))
            }
        }
    }
}

impl<T: ToContent> ToContent for Vec<T> {
    ghost meaning = { λ value. list_tree T.meaning value.items };

    fn to_content(&self, alloc: Global) -> Result<Content, OutOfMemory> {
        Ok(Content::Seq(items_of(alloc, self.as_slice())?))
    }
}

impl<T: ToContent> ToContent for &[T] {
    ghost meaning = { λ value. list_tree T.meaning value.now };

    fn to_content(&self, alloc: Global) -> Result<Content, OutOfMemory> {
        Ok(Content::Seq(items_of(alloc, *self)?))
    }
}

/// The trees of these values, in their order.
fn items_of<T: ToContent>(alloc: Global, values: &[T]) -> Result<Items, OutOfMemory>
    ensures { IfOk result (λ items. map tree (item_list items) ≡ map T.meaning values.now) }
{
    let mut items = Items::new(alloc);
    for value in values {
        items.push(value.to_content(alloc)?)?;
    }
    Ok(items)
}
