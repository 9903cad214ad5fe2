//! Batches that are loaded and saved again.
use rows::add_escaped;
use rows_outside::input_of;
use snap_content::{Error, OutOfMemory, Text};
use snap_io::MemoryStore;
use snap_pending::PendingInlineSnapshot;
use std::alloc::Global;
use std::str;

/// Why a file is refused, in a word.
fn refusal(error: &Error) -> &'static str {
    match error {
        Error::NoFile(_) => "NoFile",
        Error::NotText(_) => "NotText",
        Error::FailedParsingYaml(_) => "FailedParsingYaml",
        Error::UnexpectedDataType => "UnexpectedDataType",
        Error::MissingField => "MissingField",
        Error::JsonKey => "JsonKey",
        _ => "another error",
    }
}

/// The text of a file of the store; none where it is gone.
fn file_text(alloc: Global, store: &MemoryStore, path: &Text) -> Result<Text, Error> {
    match store.get(path) {
        None => Ok(Text::empty()),
        Some(bytes) => match str::from_utf8(bytes) {
            Ok(text) => Ok(Text::from_str(alloc, text)?),
            Err(_) => Err(Error::NotText(path.try_clone(alloc)?)),
        },
    }
}

/// What is saved of the batch of a store's file.
fn saved_again(alloc: Global, store: &mut MemoryStore, path: &Text) -> Result<Text, Error> {
    let batch = PendingInlineSnapshot::load_batch(alloc, store, path)?;
    PendingInlineSnapshot::save_batch(alloc, store, path, batch.as_slice())?;
    file_text(alloc, store, path)
}

/// The answer to the bytes of a file.
pub(crate) fn batch_line(alloc: Global, column: &str) -> Result<Text, OutOfMemory> {
    let bytes = input_of(alloc, column)?;
    let path = Text::from_str(alloc, "a.pending-snap")?;
    let mut store = MemoryStore::new(alloc);
    store.put(&path, bytes.as_slice())?;
    line_in(alloc, &mut store, &path)
}

/// The answer where there is no file.
pub(crate) fn no_file_line(alloc: Global) -> Result<Text, OutOfMemory> {
    let path = Text::from_str(alloc, "a.pending-snap")?;
    let mut store = MemoryStore::new(alloc);
    line_in(alloc, &mut store, &path)
}

/// The same in a store that is lent: where it is alive at an early return, that is dear to prove.
fn line_in(alloc: Global, store: &mut MemoryStore, path: &Text) -> Result<Text, OutOfMemory> {
    let mut line = Text::empty();
    match saved_again(alloc, store, path) {
        Ok(saved) => add_escaped(alloc, &mut line, saved.as_str())?,
        Err(Error::OutOfMemory) => return Err(OutOfMemory),
        Err(error) => {
            line.push_ascii(alloc, "! ")?;
            line.push_str(alloc, refusal(&error))?;
        }
    }
    Ok(line)
}
