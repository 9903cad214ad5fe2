//! How trees compare, as trees and as keys.
use crate::columns::add_word;
use snap_content::{Content, Key, OutOfMemory, Text};
use std::alloc::Global;
use std::cmp::Ordering;

/// The sign of a comparison, which must agree with whether the two are equal.
fn sign(order: Ordering, is_equal: bool) -> &'static str {
    match (order, is_equal) {
        (Ordering::Less, false) => "<",
        (Ordering::Equal, true) => "=",
        (Ordering::Greater, false) => ">",
        _ => "!",
    }
}

/// A column for each tree, with a sign for each tree.
pub(crate) fn orders_line(alloc: Global, trees: &[Content]) -> Result<Text, OutOfMemory> {
    let mut line = Text::empty();
    for left in trees {
        add_signs(alloc, &mut line, left, trees)?;
    }
    Ok(line)
}

/// Adds a column with a sign for each tree.
fn add_signs(
    alloc: Global,
    line: &mut Text,
    left: &Content,
    trees: &[Content],
) -> Result<(), OutOfMemory> {
    add_word(alloc, line, "")?;
    for right in trees {
        line.push_str(alloc, sign(left.cmp(right), left == right))?;
    }
    Ok(())
}

/// A column for each tree as a key, with a sign for each tree as a key.
pub(crate) fn key_orders_line(alloc: Global, trees: &[Content]) -> Result<Text, OutOfMemory> {
    let mut line = Text::empty();
    for left in trees {
        add_key_signs(alloc, &mut line, left.as_key(), trees)?;
    }
    Ok(line)
}

/// Adds a column with a sign for each tree as a key.
fn add_key_signs(
    alloc: Global,
    line: &mut Text,
    left: Key<'_>,
    trees: &[Content],
) -> Result<(), OutOfMemory> {
    add_word(alloc, line, "")?;
    for tree in trees {
        let right = tree.as_key();
        line.push_str(alloc, sign(left.cmp(&right), left == right))?;
    }
    Ok(())
}
