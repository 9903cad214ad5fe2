//! Lists of names, and names of errors.
use rows::{add_number_column, add_text_column, first_column, text_of};
use snap_content::{OutOfMemory, Text};
use snap_io::{Fault, Names, StoreError};
use std::alloc::Global;
use std::cmp::Ordering;

/// The names of a column, a blank between each two.
fn words_of(alloc: Global, column: &str) -> Result<Vec<Text>, OutOfMemory> {
    let mut words = Vec::new(alloc);
    for word in column.split(' ') {
        words.push(text_of(alloc, word)?)?;
    }
    Ok(words)
}

/// The same, name by name.
fn names_of(alloc: Global, column: &str) -> Result<Names, OutOfMemory> {
    let mut names = Names::new(alloc);
    for word in column.split(' ') {
        names.push(text_of(alloc, word)?)?;
    }
    Ok(names)
}

fn order_word(order: Ordering) -> &'static str {
    match order {
        Ordering::Less => "less",
        Ordering::Equal => "equal",
        Ordering::Greater => "greater",
    }
}

/// How the names of two columns compare, whether they are the same, and how many the first ones are.
pub(crate) fn names_line(alloc: Global, columns: &str) -> Result<Text, OutOfMemory> {
    let (left, right) = first_column(columns);
    let names = names_of(alloc, left)?;
    let mut line = compared_line(alloc, &names, right)?;
    add_number_column(alloc, &mut line, "names", names.into_vec().len() as u64)?;
    Ok(line)
}

fn compared_line(alloc: Global, names: &Names, column: &str) -> Result<Text, OutOfMemory> {
    let others = Names::from_vec(words_of(alloc, column)?);
    told_line(alloc, names, &others)
}

fn told_line(alloc: Global, names: &Names, others: &Names) -> Result<Text, OutOfMemory> {
    let mut line = Text::from_str(alloc, order_word(names.cmp(others)))?;
    let same = if names == others { "same" } else { "other" };
    add_text_column(alloc, &mut line, same)?;
    Ok(line)
}

fn store_error_line(alloc: Global, error: StoreError) -> Result<Text, OutOfMemory> {
    let told = format!(in alloc; "{error}\t{error:?}")?;
    Text::from_str(alloc, told.as_str())
}

/// How the error of this name is told; that of a store also for whoever looks for bugs.
pub(crate) fn error_line(alloc: Global, name: &str) -> Result<Text, OutOfMemory> {
    match name {
        "Fault" => {
            let told = format!(in alloc; "{}", Fault)?;
            Text::from_str(alloc, told.as_str())
        }
        "Failed" => store_error_line(alloc, StoreError::Failed),
        "OutOfMemory" => store_error_line(alloc, StoreError::OutOfMemory),
        _ => Text::from_ascii(alloc, "! no such error"),
    }
}
