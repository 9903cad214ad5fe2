//! What is asked of selectors and paths.
use crate::error::AskError;
use crate::paths::{path_of, step_of};
use rows::{add_escaped, first_column, text_of};
use snap_content::{OutOfMemory, Text};
use snap_select::{ContentPath, PathItem, SelectError, Selector, SelectorParseError};
use std::alloc::Global;

/// The answer to the question of that name.
pub(crate) fn answered(alloc: Global, name: &str, columns: &str) -> Result<Text, anyhow::Error> {
    match name {
        "parse" => Ok(parsed(alloc, columns)?),
        "match" => matched(alloc, columns),
        "fronts" => fronts(alloc, columns),
        "between" => between(alloc, columns),
        "path" => path_texts(alloc, columns),
        "no memory" => Err(SelectError::from(OutOfMemory).into()),
        _ => Err(AskError::NoQuestion.into()),
    }
}

fn yes_or_no(alloc: Global, answer: bool) -> Result<Text, anyhow::Error> {
    Ok(Text::from_ascii(alloc, if answer { "yes" } else { "no" })?)
}

/// Whether the column is a selector, or its fault.
fn parsed(alloc: Global, column: &str) -> Result<Text, OutOfMemory> {
    let text = text_of(alloc, column)?;
    match Selector::parse(alloc, text.as_str()) {
        Ok(_) => Text::from_ascii(alloc, "selector"),
        Err(SelectError::Parse(fault)) => fault_line(alloc, fault),
        Err(SelectError::OutOfMemory) => Err(OutOfMemory),
    }
}

/// The names of the error, of what is wrong, and the column of it.
fn fault_line(alloc: Global, fault: SelectorParseError) -> Result<Text, OutOfMemory> {
    let error = SelectError::Parse(fault);
    let line = format!(in alloc; "! {error} {fault} {} {}", fault.kind(), fault.column())?;
    Text::from_str(alloc, line.as_str())
}

/// Whether the selector matches the path.
fn matched(alloc: Global, columns: &str) -> Result<Text, anyhow::Error> {
    let (first, steps) = first_column(columns);
    let path = path_of(alloc, steps)?;
    matched_path(alloc, first, path.as_slice())
}

/// The same of a path that is lent: where it is alive at an early return, that is dear to prove.
fn matched_path(alloc: Global, column: &str, path: &[PathItem]) -> Result<Text, anyhow::Error> {
    let text = text_of(alloc, column)?;
    let selector = Selector::parse(alloc, text.as_str())?;
    yes_or_no(alloc, selector.is_match(path))
}

/// The signs of the selector and of its copies.
fn fronts(alloc: Global, columns: &str) -> Result<Text, anyhow::Error> {
    let (first, steps) = first_column(columns);
    let path = path_of(alloc, steps)?;
    fronts_of(alloc, first, path.as_slice())
}

fn fronts_of(alloc: Global, column: &str, path: &[PathItem]) -> Result<Text, anyhow::Error> {
    let text = text_of(alloc, column)?;
    let selector = Selector::parse(alloc, text.as_str())?;
    let mut line = signs_line(alloc, &selector, path)?;
    add_signs_of_copy(alloc, &mut line, selector.make_static(alloc)?, path)?;
    Ok(line)
}

/// The signs of a selector and of its copy.
fn signs_line(
    alloc: Global,
    selector: &Selector<'_>,
    path: &[PathItem],
) -> Result<Text, OutOfMemory> {
    let mut line = Text::empty();
    add_signs(alloc, &mut line, selector, path)?;
    add_signs_of_copy(alloc, &mut line, selector.try_clone(alloc)?, path)?;
    Ok(line)
}

/// Adds the signs of a copy, which ends here, after a blank.
fn add_signs_of_copy(
    alloc: Global,
    line: &mut Text,
    copy: Selector<'_>,
    path: &[PathItem],
) -> Result<(), OutOfMemory> {
    add_signs_after(alloc, line, &copy, path)
}

fn add_signs_after(
    alloc: Global,
    line: &mut Text,
    selector: &Selector<'_>,
    path: &[PathItem],
) -> Result<(), OutOfMemory> {
    line.push_ascii(alloc, " ")?;
    add_signs(alloc, line, selector, path)
}

fn add_sign(alloc: Global, line: &mut Text, is_matched: bool) -> Result<(), OutOfMemory> {
    if is_matched {
        line.push_ascii(alloc, "+")
    } else {
        line.push_ascii(alloc, "-")
    }
}

/// Adds a sign for each front of the path.
fn add_signs(
    alloc: Global,
    line: &mut Text,
    selector: &Selector<'_>,
    path: &[PathItem],
) -> Result<(), OutOfMemory> {
    for length in 0..=path.len() {
        let front = path.get(..length).unwrap_or(path);
        add_sign(alloc, line, selector.is_match(front))?;
    }
    Ok(())
}

/// Whether the step is an item between the bounds.
fn between(alloc: Global, columns: &str) -> Result<Text, anyhow::Error> {
    let (from, others) = first_column(columns);
    let (to, column) = first_column(others);
    let (from, to) = (bound_of(from)?, bound_of(to)?);
    let step = step_of(alloc, column)?;
    yes_or_no(alloc, step.range_check(from, to))
}

/// The bound of a column; none where it is empty.
fn bound_of(column: &str) -> Result<Option<i64>, AskError> {
    if column.is_empty() {
        return Ok(None);
    }
    match column.parse::<i64>() {
        Ok(bound) => Ok(Some(bound)),
        Err(_) => Err(AskError::NoBound),
    }
}

/// The text of the path, and that of a copy, with a tab between them.
fn path_texts(alloc: Global, columns: &str) -> Result<Text, anyhow::Error> {
    let steps = path_of(alloc, columns)?;
    texts_of(alloc, steps.as_slice())
}

fn texts_of(alloc: Global, steps: &[PathItem]) -> Result<Text, anyhow::Error> {
    let path = ContentPath::new(steps);
    let mut line = Text::empty();
    add_path(alloc, &mut line, &path)?;
    line.push_ascii(alloc, "\t")?;
    add_path(alloc, &mut line, &path.clone()?)?;
    Ok(line)
}

fn add_path(alloc: Global, line: &mut Text, path: &ContentPath<'_>) -> Result<(), OutOfMemory> {
    let text = path.to_string(alloc)?;
    add_escaped(alloc, line, text.as_str())
}
