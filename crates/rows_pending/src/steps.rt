//! Records without snapshots that are saved one after the other.
use snap_content::{Error, OutOfMemory, Text};
use snap_io::MemoryStore;
use snap_pending::PendingInlineSnapshot;
use std::alloc::Global;

/// Takes each step in turn, up to one that fails.
pub(crate) fn taken(
    alloc: Global,
    store: &mut MemoryStore,
    path: &Text,
    columns: &str,
) -> Result<(), Error> {
    for step in columns.split('\t') {
        take(alloc, store, path, step)?;
    }
    Ok(())
}

fn take(alloc: Global, store: &mut MemoryStore, path: &Text, step: &str) -> Result<(), Error> {
    let (word, digits) = step.split_once(' ').unwrap_or((step, ""));
    let number = digits.parse::<u32>().unwrap_or(0);
    match word {
        "add" => add(alloc, store, path, number),
        "replace" => replace(alloc, store, path, number),
        "fail" => Ok(fail(alloc, store, number)?),
        _ => Ok(()),
    }
}

/// A record of the run `r1` without snapshots.
fn passed(alloc: Global, line: u32) -> Result<PendingInlineSnapshot, OutOfMemory> {
    let run = Text::from_ascii(alloc, "r1")?;
    Ok(PendingInlineSnapshot::new(run, None, None, line))
}

/// Saves a record of this line.
fn add(alloc: Global, store: &mut MemoryStore, path: &Text, line: u32) -> Result<(), Error> {
    let pending = passed(alloc, line)?;
    pending.save(alloc, store, path)
}

/// Saves a batch of one record of this line.
fn replace(alloc: Global, store: &mut MemoryStore, path: &Text, line: u32) -> Result<(), Error> {
    let pending = passed(alloc, line)?;
    PendingInlineSnapshot::save_batch(alloc, store, path, &[pending])
}

/// Lets the call of this number fail.
fn fail(alloc: Global, store: &mut MemoryStore, call: u32) -> Result<(), OutOfMemory> {
    store.fail_at(vec![in alloc; call as u64]?);
    Ok(())
}
