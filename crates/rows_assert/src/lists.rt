//! Lists of one redaction.
//!
//! Each function that asks for a redaction makes it: a function may not make one and hand it out.
use crate::columns::add_taken;
use rows::{add_text_column, first_column, text_of};
use snap_assert::Redactions;
use snap_content::{Content, OutOfMemory, Text};
use snap_emit::yaml;
use snap_select::{Redaction, SelectError};
use std::alloc::Global;

/// The list of one redaction.
pub(crate) fn list_of(
    alloc: Global,
    selector: Text,
    redaction: Redaction,
) -> Result<Vec<(Text, Redaction)>, OutOfMemory> {
    let mut list = Vec::new(alloc);
    list.push((selector, redaction))?;
    Ok(list)
}

/// The text of a tree, which ends here.
fn text_of_tree(alloc: Global, tree: Content) -> Result<Text, OutOfMemory> {
    let text = yaml::to_string(alloc, &tree, false);
    drop(tree);
    text
}

/// A column with the text of the tree that redactions make of 42.
fn applied_line(alloc: Global, redactions: &Redactions) -> Result<Text, anyhow::Error> {
    let made = text_of_tree(alloc, redactions.apply(alloc, Content::U8(42))?)?;
    let mut line = Text::empty();
    add_text_column(alloc, &mut line, made.as_str())?;
    Ok(line)
}

/// A column with what is wrong in a selector.
fn refused_line(alloc: Global, error: SelectError) -> Result<Text, OutOfMemory> {
    let mut line = Text::empty();
    add_taken(alloc, &mut line, Err(error))?;
    Ok(line)
}

/// What a list of one redaction makes of 42.
pub(crate) fn list_line(alloc: Global, columns: &str) -> Result<Text, anyhow::Error> {
    let (selector, text) = first_column(columns);
    let selector = Text::from_str(alloc, selector)?;
    let put = Content::String(text_of(alloc, text)?);
    let list = list_of(alloc, selector, Redaction::from_content(put))?;
    match Redactions::from_list(alloc, list) {
        Ok(redactions) => applied_line(alloc, &redactions),
        Err(error) => Ok(refused_line(alloc, error)?),
    }
}
