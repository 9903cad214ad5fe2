//! A tree as the words that `trees` reads.
use crate::lines::add_escaped;
use snap_content::{Blob, Content, Fields, Items, OutOfMemory, Pairs, Text};
use std::alloc::Global;
use std::fmt::Display;

/// Adds the words of a tree to a line that is empty or ends in a whole word.
#[cycle(written)]
pub fn add_tree(alloc: Global, line: &mut Text, tree: &Content) -> Result<(), OutOfMemory> {
    match tree {
        Content::Some(inner) => add_inner(alloc, line, "Some", inner),
        Content::NewtypeStruct(name, inner) => {
            add_text(alloc, line, name)?;
            add_inner(alloc, line, "NewtypeStruct", inner)
        }
        Content::NewtypeVariant(of, index, variant, inner) => {
            add_names(alloc, line, of, *index, variant)?;
            add_inner(alloc, line, "NewtypeVariant", inner)
        }
        Content::Seq(_)
        | Content::Tuple(_)
        | Content::TupleStruct(_, _)
        | Content::TupleVariant(_, _, _, _) => add_list(alloc, line, tree),
        Content::Map(_) | Content::Struct(_, _) | Content::StructVariant(_, _, _, _) => {
            add_mapping(alloc, line, tree)
        }
        scalar => add_scalar(alloc, line, scalar),
    }
}

/// Adds the words of a tree that holds one other.
#[cycle(written)]
fn add_inner(
    alloc: Global,
    line: &mut Text,
    kind: &str,
    inner: &Content,
) -> Result<(), OutOfMemory> {
    add_tree(alloc, line, inner)?;
    add_word(alloc, line, kind)
}

/// Adds the words of a tree that holds others in their order.
#[cycle(written)]
fn add_list(alloc: Global, line: &mut Text, tree: &Content) -> Result<(), OutOfMemory> {
    match tree {
        Content::Seq(items) => add_items(alloc, line, "Seq", items),
        Content::Tuple(items) => add_items(alloc, line, "Tuple", items),
        Content::TupleStruct(name, items) => {
            add_text(alloc, line, name)?;
            add_items(alloc, line, "TupleStruct", items)
        }
        Content::TupleVariant(of, index, variant, items) => {
            add_names(alloc, line, of, *index, variant)?;
            add_items(alloc, line, "TupleVariant", items)
        }
        _ => Ok(()),
    }
}

/// Adds the words of a tree that holds pairs.
#[cycle(written)]
fn add_mapping(alloc: Global, line: &mut Text, tree: &Content) -> Result<(), OutOfMemory> {
    match tree {
        Content::Map(pairs) => add_pairs(alloc, line, pairs),
        Content::Struct(name, fields) => {
            add_text(alloc, line, name)?;
            add_fields(alloc, line, "Struct", fields)
        }
        Content::StructVariant(of, index, variant, fields) => {
            add_names(alloc, line, of, *index, variant)?;
            add_fields(alloc, line, "StructVariant", fields)
        }
        _ => Ok(()),
    }
}

#[cycle(written)]
fn add_items(alloc: Global, line: &mut Text, kind: &str, items: &Items) -> Result<(), OutOfMemory> {
    for item in items.as_slice() {
        add_tree(alloc, line, item)?;
    }
    add_counted(alloc, line, kind, &items.len())
}

#[cycle(written)]
fn add_pairs(alloc: Global, line: &mut Text, pairs: &Pairs) -> Result<(), OutOfMemory> {
    for (key, value) in pairs.as_slice() {
        add_tree(alloc, line, key)?;
        add_tree(alloc, line, value)?;
    }
    add_counted(alloc, line, "Map", &pairs.len())
}

#[cycle(written)]
fn add_fields(
    alloc: Global,
    line: &mut Text,
    kind: &str,
    fields: &Fields,
) -> Result<(), OutOfMemory> {
    for (name, value) in fields.as_slice() {
        add_text(alloc, line, name)?;
        add_tree(alloc, line, value)?;
    }
    add_counted(alloc, line, kind, &fields.len())
}

/// Adds the words of a tree that holds no other.
fn add_scalar(alloc: Global, line: &mut Text, scalar: &Content) -> Result<(), OutOfMemory> {
    match scalar {
        Content::None => add_word(alloc, line, "None"),
        Content::Unit => add_word(alloc, line, "Unit"),
        Content::Bool(true) => add_word(alloc, line, "Bool true"),
        Content::Bool(false) => add_word(alloc, line, "Bool false"),
        Content::String(text) => add_text(alloc, line, text),
        Content::Char(c) => add_char(alloc, line, *c),
        Content::Bytes(bytes) => add_bytes(alloc, line, bytes),
        Content::UnitStruct(name) => {
            add_text(alloc, line, name)?;
            add_word(alloc, line, "UnitStruct")
        }
        Content::UnitVariant(of, index, variant) => add_names(alloc, line, of, *index, variant),
        number => add_number(alloc, line, number),
    }
}

/// Adds the word of a number.
fn add_number(alloc: Global, line: &mut Text, number: &Content) -> Result<(), OutOfMemory> {
    match number {
        Content::U8(number) => add_counted(alloc, line, "U8", number),
        Content::U16(number) => add_counted(alloc, line, "U16", number),
        Content::U32(number) => add_counted(alloc, line, "U32", number),
        Content::U64(number) => add_counted(alloc, line, "U64", number),
        Content::U128(number) => add_counted(alloc, line, "U128", number),
        other => add_signed(alloc, line, other),
    }
}

/// Adds the word of a number with a sign.
fn add_signed(alloc: Global, line: &mut Text, number: &Content) -> Result<(), OutOfMemory> {
    match number {
        Content::I8(number) => add_counted(alloc, line, "I8", number),
        Content::I16(number) => add_counted(alloc, line, "I16", number),
        Content::I32(number) => add_counted(alloc, line, "I32", number),
        Content::I64(number) => add_counted(alloc, line, "I64", number),
        Content::I128(number) => add_counted(alloc, line, "I128", number),
        _ => Ok(()),
    }
}

/// Adds the word of a character.
fn add_char(alloc: Global, line: &mut Text, c: char) -> Result<(), OutOfMemory> {
    add_word(alloc, line, "Char ")?;
    let mut letter = Text::empty();
    letter.push(alloc, c)?;
    add_escaped(alloc, line, letter.as_str())
}

fn add_bytes(alloc: Global, line: &mut Text, bytes: &Blob) -> Result<(), OutOfMemory> {
    add_word(alloc, line, "Bytes")?;
    for byte in bytes.as_slice() {
        let word = format!(in alloc; " {byte}")?;
        line.push_str(alloc, word.as_str())?;
    }
    Ok(())
}

/// Adds the words of a variant's names, as those of a unit variant.
fn add_names(
    alloc: Global,
    line: &mut Text,
    of: &Text,
    index: u32,
    variant: &Text,
) -> Result<(), OutOfMemory> {
    add_text(alloc, line, of)?;
    add_text(alloc, line, variant)?;
    add_counted(alloc, line, "UnitVariant", &index)
}

/// Adds the word of a text.
fn add_text(alloc: Global, line: &mut Text, text: &Text) -> Result<(), OutOfMemory> {
    add_word(alloc, line, "String ")?;
    add_escaped(alloc, line, text.as_str())
}

/// Adds a word with a number after it.
fn add_counted(
    alloc: Global,
    line: &mut Text,
    kind: &str,
    number: &impl Display,
) -> Result<(), OutOfMemory> {
    let word = format!(in alloc; "{kind} {number}")?;
    add_word(alloc, line, word.as_str())
}

/// Adds a word, after a tab where it is not the first.
fn add_word(alloc: Global, line: &mut Text, word: &str) -> Result<(), OutOfMemory> {
    if !line.as_str().is_empty() {
        line.push_ascii(alloc, "\t")?;
    }
    line.push_str(alloc, word)
}
