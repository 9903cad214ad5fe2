//! What is written of errors.
use rows::{first_column, text_of};
use snap_assert::{AssertError, DuplicateKey};
use snap_content::{OutOfMemory, Text};
use snap_store::SnapshotContents;
use std::alloc::Global;

/// The error of this name that holds nothing.
fn plain_error(name: &str) -> AssertError {
    match name {
        "NameClash" => AssertError::NameClash,
        "DoctestNeedsName" => AssertError::DoctestNeedsName,
        "NamesExhausted" => AssertError::NamesExhausted,
        "InlineDuplicate" => AssertError::InlineDuplicate,
        "BadExtension" => AssertError::BadExtension,
        "JsonKey" => AssertError::JsonKey,
        _ => AssertError::OutOfMemory,
    }
}

/// The error of two binary snapshots of this module and this name.
fn duplicate(alloc: Global, columns: &str) -> Result<AssertError, OutOfMemory> {
    let (module, name) = first_column(columns);
    let module = text_of(alloc, module)?;
    let name = text_of(alloc, name)?;
    Ok(AssertError::DuplicateDiffers {
        key: DuplicateKey::Named(module, name),
        kept: SnapshotContents::Binary(None),
        new: SnapshotContents::Binary(None),
    })
}

/// The error of this name, with what it holds.
fn error_named(alloc: Global, name: &str, rest: &str) -> Result<AssertError, OutOfMemory> {
    match name {
        "FileIo" => Ok(AssertError::FileIo(text_of(alloc, rest)?)),
        "DuplicateDiffers" => duplicate(alloc, rest),
        _ => Ok(plain_error(name)),
    }
}

/// What is written of an error.
pub(crate) fn error_line(alloc: Global, columns: &str) -> Result<Text, anyhow::Error> {
    let (name, rest) = first_column(columns);
    Ok(written_line(alloc, error_named(alloc, name, rest)?)?)
}

fn written_line(alloc: Global, error: AssertError) -> Result<Text, OutOfMemory> {
    written_of(alloc, &error)
}

fn written_of(alloc: Global, error: &AssertError) -> Result<Text, OutOfMemory> {
    let written = format!(in alloc; "{error}")?;
    Text::from_str(alloc, written.as_str())
}
