//! The counters by their names.
use crate::{documents, dumps, prints, tokens};
use rows::{first_column, text_of};
use std::alloc::Global;
use std::string::String;

/// What a counter says of its input.
pub(crate) fn counted(alloc: Global, counter: &str, input: &str) -> Result<String, anyhow::Error> {
    let (name, rounds) = counter.split_once(' ').unwrap_or((counter, ""));
    let rounds = rounds.parse::<u32>().unwrap_or(0);
    match name {
        "scan" => tokens_line(alloc, input),
        "load" => documents_line(alloc, input),
        "dump" => dumps_line(alloc, input, rounds),
        "print" => prints_line(alloc, input, rounds),
        _ => Ok(format!(in alloc; "no such counter")?),
    }
}

/// The same of a line: a counter and its input.
pub(crate) fn counted_row(alloc: Global, line: &str) -> Result<String, anyhow::Error> {
    let (counter, input) = first_column(line);
    let input = text_of(alloc, input)?;
    counted(alloc, counter, input.as_str())
}

fn tokens_line(alloc: Global, input: &str) -> Result<String, anyhow::Error> {
    Ok(format!(in alloc; "tokens {}", tokens::count(alloc, input))?)
}

fn documents_line(alloc: Global, input: &str) -> Result<String, anyhow::Error> {
    match documents::counted(alloc, input) {
        Some(documents) => Ok(format!(in alloc; "documents {documents}")?),
        None => Ok(format!(in alloc; "no documents")?),
    }
}

fn dumps_line(alloc: Global, input: &str, rounds: u32) -> Result<String, anyhow::Error> {
    let values = dumps::values_of(alloc, input)?;
    let mut bytes = 0;
    for _round in 0..rounds {
        bytes = dumps::dumped_bytes(alloc, values.as_slice())?;
    }
    Ok(format!(in alloc; "values {} bytes {bytes}", values.len())?)
}

fn prints_line(alloc: Global, input: &str, rounds: u32) -> Result<String, anyhow::Error> {
    let trees = prints::trees_of(alloc, input)?;
    let mut bytes = 0;
    for _round in 0..rounds {
        bytes = prints::printed_bytes(alloc, trees.as_slice())?;
    }
    Ok(format!(in alloc; "trees {} bytes {bytes}", trees.len())?)
}
