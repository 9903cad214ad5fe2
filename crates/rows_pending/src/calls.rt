//! The calls, each with its columns. They use one store, which is empty at first, and the file `p` in it.
//!
//! - `save RUN LINE NEW OLD`: a record is saved, of snapshots in three columns each; the last ones may be left out.
//! - `again TEXT`: the batch of a file is loaded and saved.
//! - `steps STEP..`: records without snapshots, one after the other: `add LINE` saves one, `replace LINE` saves a batch of one, and
//!   `fail CALL` lets that call of the store fail.
use crate::records::{saved, saved_again};
use crate::steps::taken;
use crate::stored::store_line;
use rows::first_column;
use snap_content::{OutOfMemory, Text};
use snap_io::MemoryStore;
use std::alloc::Global;

/// The answer to a row.
pub(crate) fn called(alloc: Global, row: &str) -> Result<Text, OutOfMemory> {
    let (call, columns) = first_column(row);
    let path = Text::from_ascii(alloc, "p")?;
    let mut store = MemoryStore::new(alloc);
    called_in(alloc, &mut store, &path, call, columns)
}

/// The same in a store that is lent: where it is alive at an early return, that is dear to prove.
fn called_in(
    alloc: Global,
    store: &mut MemoryStore,
    path: &Text,
    call: &str,
    columns: &str,
) -> Result<Text, OutOfMemory> {
    let end = match call {
        "save" => saved(alloc, store, path, columns),
        "again" => saved_again(alloc, store, path, columns),
        "steps" => taken(alloc, store, path, columns),
        _ => return Text::from_ascii(alloc, "no call"),
    };
    store_line(alloc, store, path, &end)
}
