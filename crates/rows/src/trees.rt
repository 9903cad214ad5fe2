//! Trees on one line: words with a tab between each two, a tree after the trees that it holds.
//!
//! A word is the name of a variant, and what it needs after a blank: `Bool true`, `U8 1` to `I128 1`, `Char c`, `String t`,
//! `Bytes 1 2 3`, `None`, `Unit`. `Some` holds the tree before it; `Seq 2` and `Tuple 2` hold two, and `Map 2` two pairs.
//! A name stands before what it names, as a text: `UnitStruct`, `NewtypeStruct`, `TupleStruct 2` and `Struct 2`, whose fields are pairs
//! of a name and a tree; `UnitVariant 3` is the variant of index 3, after the name of its type and its own. The other variants,
//! `NewtypeVariant`, `TupleVariant 2` and `StructVariant 2`, stand after the unit variant of their names and what they hold.
//! A text stands there as `lines` writes it.
use crate::error::LineError;
use crate::held::{last_pairs, last_values};
use crate::scalars::scalar;
use snap_content::{Content, Fields, Items, OutOfMemory, Pairs, Text};
use std::alloc::Global;

/// The tree that a line stands for.
pub fn tree_of_line(alloc: Global, line: &str) -> Result<Content, LineError> {
    let mut held = Vec::new(alloc);
    for word in line.split('\t') {
        hold_word(alloc, &mut held, word)?;
    }
    last_tree(&mut held)
}

/// Holds the tree that a word stands for.
fn hold_word(alloc: Global, held: &mut Vec<Content>, word: &str) -> Result<(), LineError> {
    let (kind, rest) = word.split_once(' ').unwrap_or((word, ""));
    let tree = tree_of_word(alloc, held, kind, rest)?;
    Ok(hold(held, tree)?)
}

fn hold(held: &mut Vec<Content>, tree: Content) -> Result<(), OutOfMemory> {
    held.push(tree)?;
    Ok(())
}

/// The tree that a word stands for, after the trees before it.
fn tree_of_word(
    alloc: Global,
    held: &mut Vec<Content>,
    kind: &str,
    rest: &str,
) -> Result<Content, LineError> {
    match kind {
        "Some" => Ok(Content::Some(boxed_tree(alloc, held)?)),
        "Seq" => Ok(Content::Seq(items(held, rest)?)),
        "Tuple" => Ok(Content::Tuple(items(held, rest)?)),
        "Map" => Ok(Content::Map(pairs(alloc, held, rest)?)),
        "UnitStruct" => Ok(Content::UnitStruct(name(held)?)),
        "NewtypeStruct" => newtype_struct(alloc, held),
        "TupleStruct" => tuple_struct(held, rest),
        "Struct" => named_struct(alloc, held, rest),
        "UnitVariant" => unit_variant(held, rest),
        "NewtypeVariant" => newtype_variant(alloc, held),
        "TupleVariant" => tuple_variant(held, rest),
        "StructVariant" => struct_variant(alloc, held, rest),
        _ => scalar(alloc, kind, rest),
    }
}

fn newtype_struct(alloc: Global, held: &mut Vec<Content>) -> Result<Content, LineError> {
    let inner = boxed_tree(alloc, held)?;
    Ok(Content::NewtypeStruct(name(held)?, inner))
}

fn tuple_struct(held: &mut Vec<Content>, count: &str) -> Result<Content, LineError> {
    let items = items(held, count)?;
    Ok(Content::TupleStruct(name(held)?, items))
}

fn named_struct(alloc: Global, held: &mut Vec<Content>, count: &str) -> Result<Content, LineError> {
    let fields = fields(alloc, held, count)?;
    Ok(Content::Struct(name(held)?, fields))
}

fn unit_variant(held: &mut Vec<Content>, index: &str) -> Result<Content, LineError> {
    let Ok(index) = index.parse::<u32>() else {
        return Err(LineError::NoTree);
    };
    let variant = name(held)?;
    Ok(Content::UnitVariant(name(held)?, index, variant))
}

fn newtype_variant(alloc: Global, held: &mut Vec<Content>) -> Result<Content, LineError> {
    let inner = boxed_tree(alloc, held)?;
    let (of, index, variant) = names(held)?;
    Ok(Content::NewtypeVariant(of, index, variant, inner))
}

fn tuple_variant(held: &mut Vec<Content>, count: &str) -> Result<Content, LineError> {
    let items = items(held, count)?;
    let (of, index, variant) = names(held)?;
    Ok(Content::TupleVariant(of, index, variant, items))
}

fn struct_variant(
    alloc: Global,
    held: &mut Vec<Content>,
    count: &str,
) -> Result<Content, LineError> {
    let fields = fields(alloc, held, count)?;
    let (of, index, variant) = names(held)?;
    Ok(Content::StructVariant(of, index, variant, fields))
}

fn last_tree(held: &mut Vec<Content>) -> Result<Content, LineError> {
    match held.pop() {
        Some(tree) => Ok(tree),
        None => Err(LineError::NoTree),
    }
}

/// The last tree, in a box.
fn boxed_tree(alloc: Global, held: &mut Vec<Content>) -> Result<Box<Content>, LineError> {
    Ok(boxed(alloc, last_tree(held)?)?)
}

fn boxed(alloc: Global, tree: Content) -> Result<Box<Content>, OutOfMemory> {
    Ok(Box::new(alloc, tree)?)
}

/// The last tree, where it is a text.
fn name(held: &mut Vec<Content>) -> Result<Text, LineError> {
    text_of_tree(last_tree(held)?)
}

/// Ends a tree that is of another kind, in a call: where an arm ends it, the arm is dear to prove.
fn no_tree_in<T>(other: Content) -> Result<T, LineError> {
    drop(other);
    Err(LineError::NoTree)
}

fn text_of_tree(tree: Content) -> Result<Text, LineError> {
    match tree {
        Content::String(text) => Ok(text),
        other => no_tree_in(other),
    }
}

/// The parts of the last tree, where it is a unit variant.
fn names(held: &mut Vec<Content>) -> Result<(Text, u32, Text), LineError> {
    match last_tree(held)? {
        Content::UnitVariant(of, index, variant) => Ok((of, index, variant)),
        other => no_tree_in(other),
    }
}

/// The last trees, as many as the digits say.
fn items(held: &mut Vec<Content>, count: &str) -> Result<Items, LineError> {
    match last_values(held, count)? {
        Some(items) => Ok(Items::from_vec(items)),
        None => Err(LineError::NoTree),
    }
}

/// The last trees two by two, as many pairs as the digits say.
fn pairs(alloc: Global, held: &mut Vec<Content>, count: &str) -> Result<Pairs, LineError> {
    match last_pairs(alloc, held, count)? {
        Some(pairs) => Ok(Pairs::from_vec(pairs)),
        None => Err(LineError::NoTree),
    }
}

/// The last trees two by two, where each pair begins with a text.
fn fields(alloc: Global, held: &mut Vec<Content>, count: &str) -> Result<Fields, LineError> {
    let mut fields = Fields::new(alloc);
    for (name, tree) in pairs(alloc, held, count)?.into_vec() {
        add_field(&mut fields, name, tree)?;
    }
    Ok(fields)
}

fn add_field(fields: &mut Fields, name: Content, tree: Content) -> Result<(), LineError> {
    let name = text_of_tree(name)?;
    Ok(fields.push((name, tree))?)
}
