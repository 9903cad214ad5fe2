//! Sources with new literals.
use rows::{add_text_column, first_column, text_of};
use snap_content::{OutOfMemory, Text};
use snap_review::{NewLiteral, Refusal, patched};
use std::alloc::Global;

/// What a column asks for.
fn change_of(alloc: Global, column: &str) -> Result<NewLiteral, OutOfMemory> {
    let (digits, texts) = column.split_once('|').unwrap_or((column, ""));
    let (new, old) = match texts.split_once('|') {
        None => (texts, None),
        Some((new, old)) => (new, Some(text_of(alloc, old)?)),
    };
    Ok(NewLiteral {
        line: digits.parse::<u32>().unwrap_or(0),
        text: text_of(alloc, new)?,
        old,
    })
}

/// What the columns ask for.
fn changes_of(alloc: Global, columns: &str) -> Result<Vec<NewLiteral>, OutOfMemory> {
    let mut changes = Vec::new(alloc);
    if columns.is_empty() {
        return Ok(changes);
    }
    for column in columns.split('\t') {
        changes.push(change_of(alloc, column)?)?;
    }
    Ok(changes)
}

/// Why there is no source.
fn refusal_text(alloc: Global, refusal: Refusal) -> Result<Text, OutOfMemory> {
    match refusal {
        Refusal::OutOfMemory => Err(OutOfMemory),
        refusal => {
            let told = format!(in alloc; "! {refusal:?}")?;
            Text::from_str(alloc, told.as_str())
        }
    }
}

/// The source with the new literals.
pub(crate) fn patched_line(alloc: Global, columns: &str) -> Result<Text, OutOfMemory> {
    let (source, columns) = first_column(columns);
    let source = text_of(alloc, source)?;
    let changes = changes_of(alloc, columns)?;
    match patched(alloc, source.as_str(), &changes) {
        Ok(made) => {
            let mut line = Text::empty();
            add_text_column(alloc, &mut line, made.as_str())?;
            Ok(line)
        }
        Err(refusal) => refusal_text(alloc, refusal),
    }
}
