//! Stores in memory.
//!
//! Beside the calls of a store, a step may be what is no call: `put PATH BYTES`, `get PATH` and `len`; and for a store that may fail
//! `fail NUMBER..`, which lists the calls that fail, and `faults`.
use crate::columns::{add_bytes, cut_word, numbers_of};
use crate::stores::add_called;
use rows::{add_number_column, add_text_column, text_of};
use snap_content::{OutOfMemory, Text};
use snap_io::{MemoryStore, SteadyStore};
use std::alloc::Global;

/// Adds what a file holds.
fn add_held(alloc: Global, line: &mut Text, held: Option<&[u8]>) -> Result<(), OutOfMemory> {
    match held {
        Some(bytes) => add_bytes(alloc, line, bytes),
        None => add_text_column(alloc, line, "nothing"),
    }
}

/// The answers of a store of which the listed calls fail.
pub(crate) fn memory_line(alloc: Global, columns: &str) -> Result<Text, OutOfMemory> {
    let mut store = MemoryStore::new(alloc);
    steps_line(alloc, &mut store, columns)
}

fn steps_line(alloc: Global, store: &mut MemoryStore, columns: &str) -> Result<Text, OutOfMemory> {
    let mut line = Text::empty();
    for step in columns.split('\t') {
        add_step(alloc, &mut line, store, step)?;
    }
    Ok(line)
}

fn add_step(
    alloc: Global,
    line: &mut Text,
    store: &mut MemoryStore,
    step: &str,
) -> Result<(), OutOfMemory> {
    let (word, rest) = cut_word(step);
    match word {
        "fail" => {
            store.fail_at(numbers_of(alloc, rest)?);
            add_text_column(alloc, line, "set")
        }
        "faults" => add_number_column(alloc, line, word, store.faults()),
        "len" => add_number_column(alloc, line, word, store.len() as u64),
        "get" => add_held(alloc, line, store.get(&text_of(alloc, rest)?)),
        "put" => add_put(alloc, line, store, rest),
        _ => add_called(alloc, line, store, word, rest),
    }
}

fn add_put(
    alloc: Global,
    line: &mut Text,
    store: &mut MemoryStore,
    rest: &str,
) -> Result<(), OutOfMemory> {
    let (path, bytes) = cut_word(rest);
    let bytes = text_of(alloc, bytes)?;
    store.put(&text_of(alloc, path)?, bytes.as_str().as_bytes())?;
    add_text_column(alloc, line, "put")
}

/// The answers of a store that never fails.
pub(crate) fn steady_line(alloc: Global, columns: &str) -> Result<Text, OutOfMemory> {
    let mut store = SteadyStore::new(alloc);
    steady_steps_line(alloc, &mut store, columns)
}

fn steady_steps_line(
    alloc: Global,
    store: &mut SteadyStore,
    columns: &str,
) -> Result<Text, OutOfMemory> {
    let mut line = Text::empty();
    for step in columns.split('\t') {
        add_steady_step(alloc, &mut line, store, step)?;
    }
    Ok(line)
}

fn add_steady_step(
    alloc: Global,
    line: &mut Text,
    store: &mut SteadyStore,
    step: &str,
) -> Result<(), OutOfMemory> {
    let (word, rest) = cut_word(step);
    match word {
        "len" => add_number_column(alloc, line, word, store.len() as u64),
        "get" => add_held(alloc, line, store.get(&text_of(alloc, rest)?)),
        "put" => add_steady_put(alloc, line, store, rest),
        _ => add_called(alloc, line, store, word, rest),
    }
}

fn add_steady_put(
    alloc: Global,
    line: &mut Text,
    store: &mut SteadyStore,
    rest: &str,
) -> Result<(), OutOfMemory> {
    let (path, bytes) = cut_word(rest);
    let bytes = text_of(alloc, bytes)?;
    store.put(&text_of(alloc, path)?, bytes.as_str().as_bytes())?;
    add_text_column(alloc, line, "put")
}
