//! Texts that are made step by step, and texts that are lent.
use crate::columns::{add_word, equal_or_not};
use crate::error::AskError;
use rows::{add_text_column, first_column, text_of};
use snap_content::{Lent, OutOfMemory, Text};
use std::alloc::Global;

/// The text that the steps make, and how many characters a copy has. It is empty before the first step.
pub(crate) fn text_line(alloc: Global, columns: &str) -> Result<Text, anyhow::Error> {
    let mut text = Text::empty();
    for column in columns.split('\t') {
        let (call, rest) = column.split_once(' ').unwrap_or((column, ""));
        take_step(alloc, &mut text, call, rest)?;
    }
    Ok(copied_line(alloc, &text)?)
}

/// Makes the text anew, or adds to it.
fn take_step(alloc: Global, text: &mut Text, call: &str, rest: &str) -> Result<(), anyhow::Error> {
    match call {
        "from_str" => *text = Text::from_str(alloc, rest)?,
        "push_str" => text.push_str(alloc, rest)?,
        "push_text" => text.push_text(alloc, &Text::from_str(alloc, rest)?)?,
        "push" => push_each(alloc, text, rest)?,
        _ => take_ascii_step(alloc, text, call)?,
    }
    Ok(())
}

/// Adds each character by itself.
fn push_each(alloc: Global, text: &mut Text, rest: &str) -> Result<(), OutOfMemory> {
    for character in rest.chars() {
        text.push(alloc, character)?;
    }
    Ok(())
}

/// The steps of ASCII characters, which only a literal is known to have: the first makes `d`, and the second adds `c`.
fn take_ascii_step(alloc: Global, text: &mut Text, call: &str) -> Result<(), anyhow::Error> {
    match call {
        "from_ascii" => *text = Text::from_ascii(alloc, "d")?,
        "push_ascii" => text.push_ascii(alloc, "c")?,
        _ => return Err(AskError::NoStep.into()),
    }
    Ok(())
}

fn copied_line(alloc: Global, text: &Text) -> Result<Text, OutOfMemory> {
    let copy = text.try_clone(alloc)?;
    let count = format!(in alloc; "{}", copy.len())?;
    let mut line = Text::empty();
    add_text_column(alloc, &mut line, copy.as_str())?;
    add_word(alloc, &mut line, count.as_str())?;
    Ok(line)
}

/// Whether the first text is equal to the second, once borrowed and once held, and its characters where it is held.
pub(crate) fn lent_line(alloc: Global, columns: &str) -> Result<Text, OutOfMemory> {
    let (first, second) = first_column(columns);
    let held = Lent::owned(text_of(alloc, first)?);
    let (borrowed, other) = (Lent::borrowed(first), Lent::borrowed(second));
    compared_line(alloc, &borrowed, &held, &other)
}

fn compared_line(
    alloc: Global,
    borrowed: &Lent<'_>,
    held: &Lent<'_>,
    other: &Lent<'_>,
) -> Result<Text, OutOfMemory> {
    let mut line = Text::empty();
    add_word(alloc, &mut line, equal_or_not(borrowed == other))?;
    add_word(alloc, &mut line, equal_or_not(held == other))?;
    add_text_column(alloc, &mut line, held.as_str())?;
    Ok(line)
}
