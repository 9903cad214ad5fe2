//! Trees of one word and what it needs after a blank.
use rows::text_of;
use snap_content::{Content, Fields, Items, OutOfMemory, Pairs};
use std::alloc::Global;

/// The tree that a word stands for.
///
/// `String t` and `UnitStruct t` hold a text, `Struct t` is without fields, `Map` has an empty map as its one key, and `Lists 3` is
/// lists in lists, of three levels. `U8 1`, `U32 1`, `U64 1`, `U128 1` and `I64 1` are numbers. All else is nothing.
pub fn tree_of_word(alloc: Global, word: &str) -> Result<Content, OutOfMemory> {
    let (kind, rest) = word.split_once(' ').unwrap_or((word, ""));
    match kind {
        "String" => Ok(Content::String(text_of(alloc, rest)?)),
        "UnitStruct" => Ok(Content::UnitStruct(text_of(alloc, rest)?)),
        "Struct" => Ok(Content::Struct(text_of(alloc, rest)?, Fields::new(alloc))),
        "Map" => map_of_map(alloc),
        "Lists" => lists(alloc, rest.parse::<u32>().unwrap_or(1)),
        _ => Ok(number(kind, rest)),
    }
}

/// A map from an empty map to nothing.
fn map_of_map(alloc: Global) -> Result<Content, OutOfMemory> {
    let mut pairs = Pairs::new(alloc);
    pairs.push((Content::Map(Pairs::new(alloc)), Content::None))?;
    Ok(Content::Map(pairs))
}

/// A list of one item.
fn list_of(alloc: Global, item: Content) -> Result<Content, OutOfMemory> {
    let mut items = Items::new(alloc);
    items.push(item)?;
    Ok(Content::Seq(items))
}

/// Lists in lists, of this many levels.
fn lists(alloc: Global, levels: u32) -> Result<Content, OutOfMemory> {
    let mut content = Content::Seq(Items::new(alloc));
    for _level in 1..levels {
        content = list_of(alloc, content)?;
    }
    Ok(content)
}

/// The number of a kind, where the digits are one.
macro_rules! parsed {
    ($digits:expr, $kind:ty, $variant:path) => {
        match $digits.parse::<$kind>() {
            Ok(number) => $variant(number),
            Err(_) => Content::None,
        }
    };
}

fn number(kind: &str, digits: &str) -> Content {
    match kind {
        "U8" => parsed!(digits, u8, Content::U8),
        "U32" => parsed!(digits, u32, Content::U32),
        "U64" => parsed!(digits, u64, Content::U64),
        "U128" => parsed!(digits, u128, Content::U128),
        "I64" => parsed!(digits, i64, Content::I64),
        _ => Content::None,
    }
}
