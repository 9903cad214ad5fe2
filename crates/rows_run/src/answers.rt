//! What a run leaves, as columns.
use rows::{add_number_column, add_text_column};
use rows_outside::add_bytes;
use snap_content::Text;
use snap_io::Store;
use snap_run::Status;
use std::alloc::Global;

/// The folders of the files of the rows: those of runs, and those of demonstrations.
const FOLDERS: [&str; 2] = ["w/src/snapshots", "demo/src/d0/snapshots"];

/// Adds how a run ended, what is said of it, and what was written.
pub(crate) fn add_ending(
    alloc: Global,
    line: &mut Text,
    status: &Status,
    written: &[u8],
) -> Result<(), anyhow::Error> {
    add_number_column(alloc, line, "status", u64::from(status.code()))?;
    let said = status.describe(alloc)?;
    add_text_column(alloc, line, said.as_str())?;
    add_bytes(alloc, line, written)?;
    Ok(())
}

/// Adds the path and the bytes of each file of the folders.
pub(crate) fn add_files<F: Store>(
    alloc: Global,
    line: &mut Text,
    store: &mut F,
) -> Result<(), anyhow::Error> {
    for folder in FOLDERS {
        add_files_in(alloc, line, store, folder)?;
    }
    Ok(())
}

/// The same of one folder.
fn add_files_in<F: Store>(
    alloc: Global,
    line: &mut Text,
    store: &mut F,
    folder: &str,
) -> Result<(), anyhow::Error> {
    let path = Text::from_str(alloc, folder)?;
    let names = store.list(alloc, &path)?;
    for name in names.as_slice() {
        add_named_file(alloc, line, store, folder, name)?;
    }
    Ok(())
}

/// The same of the file of this name.
fn add_named_file<F: Store>(
    alloc: Global,
    line: &mut Text,
    store: &mut F,
    folder: &str,
    name: &Text,
) -> Result<(), anyhow::Error> {
    let path = format!(in alloc; "{folder}/{}", name.as_str())?;
    add_file(alloc, line, store, path.as_str())
}

/// Adds the path and the bytes of a file.
fn add_file<F: Store>(
    alloc: Global,
    line: &mut Text,
    store: &mut F,
    path: &str,
) -> Result<(), anyhow::Error> {
    add_text_column(alloc, line, path)?;
    let path = Text::from_str(alloc, path)?;
    match store.read(alloc, &path)? {
        Some(bytes) => add_bytes(alloc, line, bytes.as_slice())?,
        None => add_text_column(alloc, line, "! no file")?,
    }
    Ok(())
}
