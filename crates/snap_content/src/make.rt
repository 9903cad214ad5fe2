//! Trees of one value.
ghost use Rattle.std.specs.Prelude.{◌≡◌, IfOk};
ghost use Rattle.std.specs.Str.{chars};
ghost use Rattle.snap_content.specs.View.{tree};
ghost use Rattle.snap_content.specs.Tree as t;

use crate::blob::Blob;
use crate::content::Content;
use crate::memory::OutOfMemory;
use crate::text::Text;
use std::alloc::Global;

/// None of these but `from_str` takes memory.
impl Content {
    pub const fn from_bool(value: bool) -> Content
        ensures { tree result ≡ t.bool value }
    {
        Content::Bool(value)
    }

    pub const fn from_u8(value: u8) -> Content
        ensures { tree result ≡ t.u8 value }
    {
        Content::U8(value)
    }

    pub const fn from_u16(value: u16) -> Content
        ensures { tree result ≡ t.u16 value }
    {
        Content::U16(value)
    }

    pub const fn from_u32(value: u32) -> Content
        ensures { tree result ≡ t.u32 value }
    {
        Content::U32(value)
    }

    pub const fn from_u64(value: u64) -> Content
        ensures { tree result ≡ t.u64 value }
    {
        Content::U64(value)
    }

    pub const fn from_u128(value: u128) -> Content
        ensures { tree result ≡ t.u128 value }
    {
        Content::U128(value)
    }

    pub const fn from_i8(value: i8) -> Content
        ensures { tree result ≡ t.i8 value }
    {
        Content::I8(value)
    }

    pub const fn from_i16(value: i16) -> Content
        ensures { tree result ≡ t.i16 value }
    {
        Content::I16(value)
    }

    pub const fn from_i32(value: i32) -> Content
        ensures { tree result ≡ t.i32 value }
    {
        Content::I32(value)
    }

    pub const fn from_i64(value: i64) -> Content
        ensures { tree result ≡ t.i64 value }
    {
        Content::I64(value)
    }

    pub const fn from_i128(value: i128) -> Content
        ensures { tree result ≡ t.i128 value }
    {
        Content::I128(value)
    }

    pub const fn from_char(value: char) -> Content
        ensures { tree result ≡ t.char value }
    {
        Content::Char(value)
    }

    pub const fn from_text(value: Text) -> Content
        ensures { tree result ≡ t.string value }
    {
        Content::String(value)
    }

    pub const fn from_bytes(value: Blob) -> Content
        ensures { tree result ≡ t.bytes value }
    {
        Content::Bytes(value)
    }

    pub const fn unit() -> Content
        ensures { tree result ≡ t.unit }
    {
        Content::Unit
    }

    /// A copy of the text, as a `String`.
    pub fn from_str(alloc: Global, value: &str) -> Result<Content, OutOfMemory>
        ensures { IfOk result (λ content. tree content ≡ t.string (chars value.now)) }
    {
        Ok(Content::String(Text::from_str(alloc, value)?))
    }
}
