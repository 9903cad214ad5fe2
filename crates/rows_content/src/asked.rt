//! What is asked of texts, bytes and trees.
use crate::columns::trees_of;
use crate::error::AskError;
use crate::errors::error_line;
use crate::held::held_line;
use crate::keys::keys_line;
use crate::orders::{key_orders_line, orders_line};
use crate::texts::{lent_line, text_line};
use crate::trees::{copy_line, inside_line, read_line, sort_line};
use crate::values::value_line;
use crate::walks::walk_line;
use rows::{first_column, tree_of_column};
use snap_content::{Content, Text};
use std::alloc::Global;

/// The answer to the question of that name.
pub(crate) fn answered(alloc: Global, name: &str, columns: &str) -> Result<Text, anyhow::Error> {
    match name {
        "sort" | "copy" | "held" | "read" | "inside" | "walk" => of_one_tree(alloc, name, columns),
        "key" | "key_order" | "order" => of_trees(alloc, name, columns),
        "value" => value_line(alloc, columns),
        "text" => text_line(alloc, columns),
        "lent" => Ok(lent_line(alloc, columns)?),
        "error" => error_line(alloc, columns),
        _ => Err(AskError::NoQuestion.into()),
    }
}

/// The answer to a question of one tree, which may need more columns.
fn of_one_tree(alloc: Global, name: &str, columns: &str) -> Result<Text, anyhow::Error> {
    let (first, others) = first_column(columns);
    let mut tree = tree_of_column(alloc, first)?;
    let told = told_of_tree(alloc, name, &mut tree, others);
    drop(tree);
    told
}

fn told_of_tree(
    alloc: Global,
    name: &str,
    tree: &mut Content,
    others: &str,
) -> Result<Text, anyhow::Error> {
    match name {
        "sort" => Ok(sort_line(alloc, tree)?),
        "copy" => Ok(copy_line(alloc, tree)?),
        "held" => held_line(alloc, tree),
        "inside" => inside_line(alloc, tree, others),
        "walk" => walk_line(alloc, tree),
        _ => Ok(read_line(alloc, tree)?),
    }
}

/// The answer to a question of any number of trees.
fn of_trees(alloc: Global, name: &str, columns: &str) -> Result<Text, anyhow::Error> {
    let trees = trees_of(alloc, columns)?;
    told_of_trees(alloc, name, trees.as_slice())
}

fn told_of_trees(alloc: Global, name: &str, trees: &[Content]) -> Result<Text, anyhow::Error> {
    match name {
        "key" => Ok(keys_line(alloc, trees)?),
        "key_order" => Ok(key_orders_line(alloc, trees)?),
        _ => Ok(orders_line(alloc, trees)?),
    }
}
