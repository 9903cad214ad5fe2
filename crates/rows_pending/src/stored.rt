//! What a call has come to.
use rows::add_file;
use snap_content::{Error, OutOfMemory, Text};
use snap_io::MemoryStore;
use std::alloc::Global;

/// How many faults the store had, how many files it has, and the text of the file; or why the call failed.
pub(crate) fn store_line(
    alloc: Global,
    store: &MemoryStore,
    path: &Text,
    end: &Result<(), Error>,
) -> Result<Text, OutOfMemory> {
    let counted = format!(in alloc; "{}\t{}\t", store.faults(), store.len())?;
    let mut line = Text::from_str(alloc, counted.as_str())?;
    match end {
        Ok(()) => add_file(alloc, &mut line, store.get(path))?,
        Err(error) => add_refusal(alloc, &mut line, error)?,
    }
    Ok(line)
}

/// After out of memory there is no line.
fn add_refusal(alloc: Global, line: &mut Text, error: &Error) -> Result<(), OutOfMemory> {
    if matches!(error, Error::OutOfMemory) {
        return Err(OutOfMemory);
    }
    let told = format!(in alloc; "! {error}")?;
    line.push_str(alloc, told.as_str())
}
