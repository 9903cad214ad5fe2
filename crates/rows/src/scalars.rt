//! The trees of words that hold no other tree.
use crate::error::LineError;
use crate::lines::text_of;
use snap_content::{Blob, Content, OutOfMemory};
use std::alloc::Global;

/// The tree that a word stands for.
pub fn scalar(alloc: Global, kind: &str, rest: &str) -> Result<Content, LineError> {
    match kind {
        "None" => Ok(Content::None),
        "Unit" => Ok(Content::Unit),
        "Bool" => Ok(Content::Bool(rest == "true")),
        "Char" => character(alloc, rest),
        "String" => Ok(Content::String(text_of(alloc, rest)?)),
        "Bytes" => bytes(alloc, rest),
        _ => number(kind, rest),
    }
}

/// The first character of a text.
fn character(alloc: Global, rest: &str) -> Result<Content, LineError> {
    let text = text_of(alloc, rest)?;
    match text.as_str().chars().next() {
        Some(c) => Ok(Content::Char(c)),
        None => Err(LineError::NoTree),
    }
}

/// Bytes with a blank between each two.
fn bytes(alloc: Global, rest: &str) -> Result<Content, LineError> {
    let mut bytes = Vec::new(alloc);
    for digits in rest.split_whitespace() {
        match digits.parse::<u8>() {
            Ok(byte) => add_byte(&mut bytes, byte)?,
            Err(_) => return Err(LineError::NoTree),
        }
    }
    Ok(Content::Bytes(Blob::from_slice(alloc, bytes.as_slice())?))
}

fn add_byte(bytes: &mut Vec<u8>, byte: u8) -> Result<(), OutOfMemory> {
    bytes.push(byte)?;
    Ok(())
}

/// The whole number of a kind, where the digits are one.
macro_rules! parsed {
    ($digits:expr, $kind:ty, $variant:path) => {
        match $digits.parse::<$kind>() {
            Ok(number) => Ok($variant(number)),
            Err(_) => Err(LineError::NoTree),
        }
    };
}

fn number(kind: &str, digits: &str) -> Result<Content, LineError> {
    match kind {
        "U8" => parsed!(digits, u8, Content::U8),
        "U16" => parsed!(digits, u16, Content::U16),
        "U32" => parsed!(digits, u32, Content::U32),
        "U64" => parsed!(digits, u64, Content::U64),
        "U128" => parsed!(digits, u128, Content::U128),
        "I8" => parsed!(digits, i8, Content::I8),
        "I16" => parsed!(digits, i16, Content::I16),
        "I32" => parsed!(digits, i32, Content::I32),
        "I64" => parsed!(digits, i64, Content::I64),
        "I128" => parsed!(digits, i128, Content::I128),
        _ => Err(LineError::NoTree),
    }
}
