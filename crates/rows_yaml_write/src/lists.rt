//! Lists that are filled anew, copies, and how values compare.
use crate::error::AskError;
use crate::words::{add_value, add_word, found_line};
use snap_content::{OutOfMemory, Text};
use snap_yaml::{Array, Hash, Yaml};
use std::alloc::Global;
use std::cmp::Ordering;

/// Whether a list is empty, how long it is, and what stands at the index of it.
pub(crate) fn list_line(alloc: Global, index: usize, value: Yaml) -> Result<Text, anyhow::Error> {
    match value {
        Yaml::Array(items) => Ok(array_line(alloc, index, items)?),
        Yaml::Hash(pairs) => Ok(hash_line(alloc, index, pairs)?),
        _ => Err(AskError::NoList.into()),
    }
}

fn filled_array(alloc: Global, items: Array) -> Result<Array, OutOfMemory> {
    let mut filled = Array::new(alloc);
    for item in items.into_vec() {
        filled.push(item)?;
    }
    Ok(filled)
}

fn filled_hash(alloc: Global, pairs: Hash) -> Result<Hash, OutOfMemory> {
    let mut filled = Hash::new(alloc);
    for pair in pairs.into_vec() {
        filled.push(pair)?;
    }
    Ok(filled)
}

fn length_line(alloc: Global, is_empty: bool, length: usize) -> Result<Text, OutOfMemory> {
    let word = if is_empty { "empty" } else { "filled" };
    let line = format!(in alloc; "{word} {length}")?;
    Text::from_str(alloc, line.as_str())
}

fn array_line(alloc: Global, index: usize, items: Array) -> Result<Text, OutOfMemory> {
    let filled = filled_array(alloc, items)?;
    let (is_empty, length) = (filled.is_empty(), filled.len());
    let again = Array::from_vec(filled.into_vec());
    length_and_item(alloc, is_empty, length, again.get(index))
}

fn length_and_item(
    alloc: Global,
    is_empty: bool,
    length: usize,
    found: Option<&Yaml>,
) -> Result<Text, OutOfMemory> {
    let mut line = length_line(alloc, is_empty, length)?;
    let found = found_line(alloc, found)?;
    add_word(alloc, &mut line, found.as_str())?;
    Ok(line)
}

fn hash_line(alloc: Global, index: usize, pairs: Hash) -> Result<Text, OutOfMemory> {
    let filled = filled_hash(alloc, pairs)?;
    let (is_empty, length) = (filled.is_empty(), filled.len());
    let again = Hash::from_vec(filled.into_vec());
    length_and_pair(alloc, is_empty, length, again.get(index))
}

fn length_and_pair(
    alloc: Global,
    is_empty: bool,
    length: usize,
    found: Option<&(Yaml, Yaml)>,
) -> Result<Text, OutOfMemory> {
    let mut line = length_line(alloc, is_empty, length)?;
    add_pair(alloc, &mut line, found)?;
    Ok(line)
}

/// Adds the key and the value of a pair that was found, or `none`.
fn add_pair(
    alloc: Global,
    line: &mut Text,
    found: Option<&(Yaml, Yaml)>,
) -> Result<(), OutOfMemory> {
    match found {
        Some((key, value)) => {
            add_value(alloc, line, key)?;
            add_value(alloc, line, value)
        }
        None => add_word(alloc, line, "none"),
    }
}

/// Whether a copy is equal, and what it is.
pub(crate) fn copied_line(alloc: Global, value: &Yaml) -> Result<Text, anyhow::Error> {
    let copy = value.try_clone(alloc)?;
    compared_line(alloc, value, &copy)
}

fn compared_line(alloc: Global, value: &Yaml, copy: &Yaml) -> Result<Text, anyhow::Error> {
    let mut line = Text::empty();
    let word = if copy == value { "equal" } else { "unequal" };
    add_word(alloc, &mut line, word)?;
    add_value(alloc, &mut line, copy)?;
    Ok(line)
}

/// The sign of an order, which must agree with whether the values are equal.
fn sign(left: &Yaml, right: &Yaml) -> &'static str {
    match (left.cmp(right), left == right) {
        (Ordering::Less, false) => "<",
        (Ordering::Equal, true) => "=",
        (Ordering::Greater, false) => ">",
        _ => "!",
    }
}

/// A word for each item of an array, with a sign for each item.
pub(crate) fn order_line(alloc: Global, value: &Yaml) -> Result<Text, anyhow::Error> {
    match value {
        Yaml::Array(items) => Ok(orders_line(alloc, items.as_slice())?),
        _ => Err(AskError::NoList.into()),
    }
}

fn orders_line(alloc: Global, items: &[Yaml]) -> Result<Text, OutOfMemory> {
    let mut line = Text::empty();
    for left in items {
        add_signs(alloc, &mut line, left, items)?;
    }
    Ok(line)
}

/// Adds the signs of an item beside each other, as a word.
fn add_signs(
    alloc: Global,
    line: &mut Text,
    left: &Yaml,
    items: &[Yaml],
) -> Result<(), OutOfMemory> {
    add_word(alloc, line, "")?;
    for right in items {
        line.push_str(alloc, sign(left, right))?;
    }
    Ok(())
}
