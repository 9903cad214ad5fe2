//! Trees that are made of values of std's types and of the house's.
use crate::columns::line_of_tree;
use crate::error::AskError;
use rows::{first_column, text_of, tree_of_column};
use snap_content::{Content, OutOfMemory, Text, ToContent};
use std::alloc::Global;
use std::str::FromStr;

/// The tree that is made of a value of a type, which stands in the other columns.
pub(crate) fn value_line(alloc: Global, columns: &str) -> Result<Text, anyhow::Error> {
    let (kind, rest) = first_column(columns);
    Ok(line_of_tree(alloc, tree_of_value(alloc, kind, rest)?)?)
}

/// The tree of a value.
fn made<T: ToContent>(alloc: Global, value: &T) -> Result<Content, OutOfMemory> {
    value.to_content(alloc)
}

fn tree_of_value(alloc: Global, kind: &str, rest: &str) -> Result<Content, anyhow::Error> {
    match kind {
        "Content" => of_tree(alloc, rest),
        "Text" | "&str" | "from_str" => Ok(of_text(alloc, kind, rest)?),
        "Vec<&str>" | "&[&str]" => Ok(of_list(alloc, kind, rest)?),
        "Option<u8>" => Ok(made(alloc, &rest.parse::<u8>().ok())?),
        "Option<bool>" => Ok(made(alloc, &truth(rest))?),
        "()" => Ok(made(alloc, &())?),
        "char" => of_character(alloc, rest),
        _ => of_number(alloc, kind, rest),
    }
}

fn of_tree(alloc: Global, column: &str) -> Result<Content, anyhow::Error> {
    Ok(made_of(alloc, tree_of_column(alloc, column)?)?)
}

fn made_of(alloc: Global, tree: Content) -> Result<Content, OutOfMemory> {
    let copy = made(alloc, &tree);
    drop(tree);
    copy
}

fn of_text(alloc: Global, kind: &str, column: &str) -> Result<Content, OutOfMemory> {
    let text = text_of(alloc, column)?;
    match kind {
        "Text" => made(alloc, &text),
        "&str" => made(alloc, &text.as_str()),
        _ => Content::from_str(alloc, text.as_str()),
    }
}

/// The tree of a list of texts, one in each column.
fn of_list(alloc: Global, kind: &str, columns: &str) -> Result<Content, OutOfMemory> {
    let mut list = Vec::new(alloc);
    for column in columns.split('\t') {
        list.push(column)?;
    }
    if kind == "Vec<&str>" {
        made(alloc, &list)
    } else {
        made(alloc, &list.as_slice())
    }
}

fn truth(word: &str) -> Option<bool> {
    match word {
        "true" => Some(true),
        "false" => Some(false),
        _ => None,
    }
}

fn of_character(alloc: Global, column: &str) -> Result<Content, anyhow::Error> {
    match column.chars().next() {
        Some(character) => Ok(made(alloc, &character)?),
        None => Err(AskError::NoValue.into()),
    }
}

/// The tree of a number of a type, where the digits are one.
fn number_of<T: FromStr + ToContent + Drop>(
    alloc: Global,
    digits: &str,
) -> Result<Content, anyhow::Error>
where
    <T as FromStr>::Err: Drop,
{
    match digits.parse::<T>() {
        Ok(number) => Ok(made(alloc, &number)?),
        Err(_) => Err(AskError::NoValue.into()),
    }
}

fn of_number(alloc: Global, kind: &str, digits: &str) -> Result<Content, anyhow::Error> {
    match kind {
        "u8" => number_of::<u8>(alloc, digits),
        "u16" => number_of::<u16>(alloc, digits),
        "u32" => number_of::<u32>(alloc, digits),
        "u64" => number_of::<u64>(alloc, digits),
        "u128" => number_of::<u128>(alloc, digits),
        "usize" => number_of::<usize>(alloc, digits),
        _ => of_signed_number(alloc, kind, digits),
    }
}

fn of_signed_number(alloc: Global, kind: &str, digits: &str) -> Result<Content, anyhow::Error> {
    match kind {
        "i8" => number_of::<i8>(alloc, digits),
        "i16" => number_of::<i16>(alloc, digits),
        "i32" => number_of::<i32>(alloc, digits),
        "i64" => number_of::<i64>(alloc, digits),
        "i128" => number_of::<i128>(alloc, digits),
        "isize" => number_of::<isize>(alloc, digits),
        _ => of_truth(alloc, kind, digits),
    }
}

fn of_truth(alloc: Global, kind: &str, word: &str) -> Result<Content, anyhow::Error> {
    match (kind, truth(word)) {
        ("bool", Some(value)) => Ok(made(alloc, &value)?),
        _ => Err(AskError::NoValue.into()),
    }
}
