//! Paths in the columns of a line.
//!
//! A step is `field` and a name, `index` with a position and the number of the list's items, or `key` and a tree, as
//! `rows` reads it from a column.
use crate::error::AskError;
use rows::{text_of, tree_of_column};
use snap_select::PathItem;
use std::alloc::Global;

/// The path of the columns' steps. An empty column is none.
pub(crate) fn path_of(alloc: Global, columns: &str) -> Result<Vec<PathItem>, anyhow::Error> {
    let mut path = Vec::new(alloc);
    for column in columns.split('\t') {
        if !column.is_empty() {
            add_step(alloc, &mut path, column)?;
        }
    }
    Ok(path)
}

fn add_step(alloc: Global, path: &mut Vec<PathItem>, column: &str) -> Result<(), anyhow::Error> {
    let step = step_of(alloc, column)?;
    Ok(path.push(step)?)
}

/// The step that a column stands for.
pub(crate) fn step_of(alloc: Global, column: &str) -> Result<PathItem, anyhow::Error> {
    let (kind, rest) = column.split_once(' ').unwrap_or((column, ""));
    match kind {
        "field" => Ok(PathItem::Field(text_of(alloc, rest)?)),
        "index" => Ok(item_of(rest)?),
        "key" => Ok(PathItem::Content(tree_of_column(alloc, rest)?)),
        _ => Err(AskError::NoStep.into()),
    }
}

/// The item at a position of a list with so many.
fn item_of(numbers: &str) -> Result<PathItem, AskError> {
    let (index, length) = numbers.split_once(' ').unwrap_or((numbers, ""));
    Ok(PathItem::Index(number_of(index)?, number_of(length)?))
}

fn number_of(digits: &str) -> Result<u64, AskError> {
    match digits.parse::<u64>() {
        Ok(number) => Ok(number),
        Err(_) => Err(AskError::NoStep),
    }
}
